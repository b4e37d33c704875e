//! Tokens of sources with the block that they begin with.

/// Each row is `SOURCE => ANSWER`. The answer is the tree and, after `@`, how many tokens it takes, or the refused
/// token by how many stand before it, after `over budget` where it is one bracket or operator too many. A row that
/// begins with `-- ` says what follows.
pub const ROWS: &str = r##"
-- What stands between statements
{} => {} @2
{a} => {a} @3
{a; b} => {a b} @5
{a;} => {a} @4
{;} => refused 1
{a;; b} => refused 3
{a b} => refused 2
{a\nb} => {a b} @4
{a\n;b} => {a b} @5
{a;\nb} => {a b} @5
{if c {} d} => refused 5
{if c {}\nd} => {(if c {}) d} @7
{let a = b c} => refused 5
a => refused 0
{a => refused 2
-- What goes on with an expression at the start of a line
{a\n.b} => {a.b} @5
{if c {}\n.b} => {(if c {}) .b} @8
{break\n.b} => {break .b} @5
{return\n.b} => {return .b} @5
{return a\n.b} => {(return a.b)} @6
{return\na} => {return a} @4
{return a} => {(return a)} @4
{return; a} => {return a} @5
{return a b} => refused 3
{a\n-b} => {a (Minus b)} @5
{a\n- b} => {(Subtract a b)} @5
{if c {}\n- b} => {(if c {}) (Minus b)} @8
-- Which `if` an `else` belongs to
{if a {}\nelse {}} => {(if a {} else {})} @9
{if a {} else if b {} else {}} => {(if a {} elseif b {} else {})} @14
{if a {if b {}} else {}} => {(if a {(if b {})} else {})} @13
{if a {if b {} else {}}} => {(if a {(if b {} else {})})} @13
{if a {if b {}} else if c {}} => {(if a {(if b {})} elseif c {})} @15
{if a, let b, var c = d {}} => {(if a, let b, var c = d {})} @14
{else {}} => refused 1
{if a {} else} => refused 6
{if a {}; else {}} => refused 6
-- Each statement
{let a: A = b} => {(let a A b)} @8
{var a = b} => {(var a b)} @6
{let a} => refused 3
{a = b} => {(set Assign a b)} @5
{a += b; a.b -= c} => {(set Add a b) (set Subtract a.b c)} @11
{a *= b; a /= b; a %= b} => {(set Multiply a b) (set Divide a b) (set Remainder a b)} @13
{1 = b} => refused 2
{_ = a} => {(_ a)} @5
{_} => refused 2
{throw a} => {(throw a)} @4
{throw} => refused 2
{break; continue} => {break continue} @5
{guard a else {return}} => {(guard a {return})} @8
{guard a {}} => refused 3
{guard a else if} => refused 4
{while a {b}} => {(while a {b})} @7
{for a in b {}} => {(for a b {})} @8
{for _ in a ..< b {}} => {(for _ a HalfOpen b {})} @10
{for a in b ... c {}} => {(for a b Closed c {})} @10
{do {} catch {}} => {(do {} catch {})} @8
{do {} catch let a as A {} catch A.b {b}} => {(do {} catch a A {} catch A.b {b})} @19
{catch {}} => refused 1
-- The arms of a `switch`
{switch a {}} => {(switch a)} @6
{switch a {case .b, .c: d}} => {(switch a case .b .c {d})} @14
{switch a {case 1: b; c\ncase _:\ndefault: break}} => {(switch a case 1 {b c} case _ {} default {break})} @18
{switch a {case: b}} => {(switch a case {b})} @9
{switch a {case 1: b; case 2: c}} => {(switch a case 1 {b} case 2 {c})} @15
{switch a {case 1: b case 2: c}} => refused 8
{switch a {default: return\ncase 1: b}} => {(switch a default {return} case 1 {b})} @13
{switch a {default: if b {}\ncase 1:}} => {(switch a default {(if b {})} case 1 {})} @15
{switch a {b}} => refused 4
{case 1: a} => refused 1
"##;
