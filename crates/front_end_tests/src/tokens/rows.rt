//! Sources with what becomes of them.

/// Each row is `SOURCE => ANSWER`. The answer is a refusal, with the rule, the line and the column, or all tokens: the
/// kind, the text, the line and the column of each, and three flags, each a letter or `-`: `F`, the first on its line;
/// `T`, touching the token before; `S`, after white space. A row that begins with `--` says what follows.
pub const ROWS: &str = r##"
-- Reserved words
any as async await break case catch continue => Any "any" 1:1 F--, As "as" 1:5 --S, Async "async" 1:8 --S, Await "await" 1:14 --S, Break "break" 1:20 --S, Case "case" 1:26 --S, Catch "catch" 1:31 --S, Continue "continue" 1:37 --S, End "" 1:45 -T-
default defer do else enum extension false fileprivate => Default "default" 1:1 F--, Defer "defer" 1:9 --S, Do "do" 1:15 --S, Else "else" 1:18 --S, Enum "enum" 1:23 --S, Extension "extension" 1:28 --S, False "false" 1:38 --S, Fileprivate "fileprivate" 1:44 --S, End "" 1:55 -T-
for func guard if import in init inout internal is => For "for" 1:1 F--, Func "func" 1:5 --S, Guard "guard" 1:10 --S, If "if" 1:16 --S, Import "import" 1:19 --S, In "in" 1:26 --S, Init "init" 1:29 --S, Inout "inout" 1:34 --S, Internal "internal" 1:40 --S, Is "is" 1:49 --S, End "" 1:51 -T-
let nil private protocol public repeat return self => Let "let" 1:1 F--, Nil "nil" 1:5 --S, Private "private" 1:9 --S, Protocol "protocol" 1:17 --S, Public "public" 1:26 --S, Repeat "repeat" 1:33 --S, Return "return" 1:40 --S, Self_ "self" 1:47 --S, End "" 1:51 -T-
static struct super switch throw throws true try => Static "static" 1:1 F--, Struct "struct" 1:8 --S, Super "super" 1:15 --S, Switch "switch" 1:21 --S, Throw "throw" 1:28 --S, Throws "throws" 1:34 --S, True "true" 1:41 --S, Try "try" 1:46 --S, End "" 1:49 -T-
typealias var where while => Typealias "typealias" 1:1 F--, Var "var" 1:11 --S, Where "where" 1:15 --S, While "while" 1:21 --S, End "" 1:26 -T-
-- Words that mean something only to the grammar, and names
actor distributed nonisolated mutating final get => Name "actor" 1:1 F--, Name "distributed" 1:7 --S, Name "nonisolated" 1:19 --S, Name "mutating" 1:31 --S, Name "final" 1:40 --S, Name "get" 1:46 --S, End "" 1:49 -T-
lets Let _let let1 let_ => Name "lets" 1:1 F--, Name "Let" 1:6 --S, Name "_let" 1:10 --S, Name "let1" 1:15 --S, Name "let_" 1:20 --S, End "" 1:24 -T-
Self Any set a2B_c => Name "Self" 1:1 F--, Name "Any" 1:6 --S, Name "set" 1:10 --S, Name "a2B_c" 1:14 --S, End "" 1:19 -T-
_ __ _a a_ _1 A9_z => Underscore "_" 1:1 F--, Name "__" 1:3 --S, Name "_a" 1:6 --S, Name "a_" 1:9 --S, Name "_1" 1:12 --S, Name "A9_z" 1:15 --S, End "" 1:19 -T-
_=_.x => Underscore "_" 1:1 F--, Assign "=" 1:2 -T-, Underscore "_" 1:3 -T-, Dot "." 1:4 -T-, Name "x" 1:5 -T-, End "" 1:6 -T-
-- Integers
0 007 1_000 1__ 9_ => Integer "0" 1:1 F--, Integer "007" 1:3 --S, Integer "1_000" 1:7 --S, Integer "1__" 1:13 --S, Integer "9_" 1:17 --S, End "" 1:19 -T-
9223372036854775807 => Integer "9223372036854775807" 1:1 F--, End "" 1:20 -T-
9223372036854775808 => refused L4 1:1
9_223_372_036_854_775_807_ => Integer "9_223_372_036_854_775_807_" 1:1 F--, End "" 1:27 -T-
x 9_223_372_036_854_775_808 => refused L4 1:3
00000000009223372036854775807 => Integer "00000000009223372036854775807" 1:1 F--, End "" 1:30 -T-
-9223372036854775808 => refused L4 1:2
99999999999999999999999999999999999999999 => refused L4 1:1
18446744073709551616 => refused L4 1:1
1a 0x1F => Integer "1" 1:1 F--, Name "a" 1:2 -T-, Integer "0" 1:4 --S, Name "x1F" 1:5 -T-, End "" 1:8 -T-
1.5 => Integer "1" 1:1 F--, Dot "." 1:2 -T-, Integer "5" 1:3 -T-, End "" 1:4 -T-
-- Marks
..< ... -> == != <= >= && || ?? => HalfOpenRange "..<" 1:1 F--, Ellipsis "..." 1:5 --S, Arrow "->" 1:9 --S, EqualEqual "==" 1:12 --S, NotEqual "!=" 1:15 --S, LessEqual "<=" 1:18 --S, GreaterEqual ">=" 1:21 --S, And "&&" 1:24 --S, Or "||" 1:27 --S, Coalesce "??" 1:30 --S, End "" 1:32 -T-
+= -= *= /= %= ( ) [ ] { } => PlusAssign "+=" 1:1 F--, MinusAssign "-=" 1:4 --S, StarAssign "*=" 1:7 --S, SlashAssign "/=" 1:10 --S, PercentAssign "%=" 1:13 --S, LeftParen "(" 1:16 --S, RightParen ")" 1:18 --S, LeftBracket "[" 1:20 --S, RightBracket "]" 1:22 --S, LeftBrace "{" 1:24 --S, RightBrace "}" 1:26 --S, End "" 1:27 -T-
, : ; . = + - * / % < > ! ? => Comma "," 1:1 F--, Colon ":" 1:3 --S, Semicolon ";" 1:5 --S, Dot "." 1:7 --S, Assign "=" 1:9 --S, Plus "+" 1:11 --S, Minus "-" 1:13 --S, Star "*" 1:15 --S, Slash "/" 1:17 --S, Percent "%" 1:19 --S, Less "<" 1:21 --S, Greater ">" 1:23 --S, Bang "!" 1:25 --S, Question "?" 1:27 --S, End "" 1:28 -T-
-- Marks that could be cut two ways: the longest first, from the left
1...2 => Integer "1" 1:1 F--, Ellipsis "..." 1:2 -T-, Integer "2" 1:5 -T-, End "" 1:6 -T-
1..<2 => Integer "1" 1:1 F--, HalfOpenRange "..<" 1:2 -T-, Integer "2" 1:5 -T-, End "" 1:6 -T-
.. .... ....< => Dot "." 1:1 F--, Dot "." 1:2 -T-, Ellipsis "..." 1:4 --S, Dot "." 1:7 -T-, Ellipsis "..." 1:9 --S, Dot "." 1:12 -T-, Less "<" 1:13 -T-, End "" 1:14 -T-
..<= ...= => HalfOpenRange "..<" 1:1 F--, Assign "=" 1:4 -T-, Ellipsis "..." 1:6 --S, Assign "=" 1:9 -T-, End "" 1:10 -T-
->= --> -=- -== => Arrow "->" 1:1 F--, Assign "=" 1:3 -T-, Minus "-" 1:5 --S, Arrow "->" 1:6 -T-, MinusAssign "-=" 1:9 --S, Minus "-" 1:11 -T-, MinusAssign "-=" 1:13 --S, Assign "=" 1:15 -T-, End "" 1:16 -T-
=== ==== =! => EqualEqual "==" 1:1 F--, Assign "=" 1:3 -T-, EqualEqual "==" 1:5 --S, EqualEqual "==" 1:7 -T-, Assign "=" 1:10 --S, Bang "!" 1:11 -T-, End "" 1:12 -T-
!== <== >=> <> => NotEqual "!=" 1:1 F--, Assign "=" 1:3 -T-, LessEqual "<=" 1:5 --S, Assign "=" 1:7 -T-, GreaterEqual ">=" 1:9 --S, Greater ">" 1:11 -T-, Less "<" 1:13 --S, Greater ">" 1:14 -T-, End "" 1:15 -T-
??? ???? ? ? => Coalesce "??" 1:1 F--, Question "?" 1:3 -T-, Coalesce "??" 1:5 --S, Coalesce "??" 1:7 -T-, Question "?" 1:10 --S, Question "?" 1:12 --S, End "" 1:13 -T-
Int?? => Name "Int" 1:1 F--, Coalesce "??" 1:4 -T-, End "" 1:6 -T-
a.b a-=1 => Name "a" 1:1 F--, Dot "." 1:2 -T-, Name "b" 1:3 -T-, Name "a" 1:5 --S, MinusAssign "-=" 1:6 -T-, Integer "1" 1:8 -T-, End "" 1:9 -T-
a- =1 x! =y => Name "a" 1:1 F--, Minus "-" 1:2 -T-, Assign "=" 1:4 --S, Integer "1" 1:5 -T-, Name "x" 1:7 --S, Bang "!" 1:8 -T-, Assign "=" 1:10 --S, Name "y" 1:11 -T-, End "" 1:12 -T-
&&& a => refused L2 1:3
||| a => refused L2 1:3
a & b => refused L2 1:3
a|b => refused L2 1:2
-- Bytes that begin no token
# => refused L2 1:1
a\n @ => refused L2 2:2
$0 => refused L2 1:1
`a` => refused L2 1:1
a ^ ~b => refused L2 1:3
'a' => refused L2 1:1
a\\b => refused L2 1:2
a\x00 => refused L2 1:2
a\x0bb => refused L2 1:2
a\x0cb => refused L2 1:2
\x7f => refused L2 1:1
\xc3\xa9 => refused L2 1:1
a\xc3\xa9 => refused L2 1:2
a\xc2\xa0b => refused L2 1:2
\xef\xbb\xbfa => refused L2 1:1
-- Strings without \( )
"" => StringWhole "" 1:1 F--, End "" 1:3 -T-
a"b"c => Name "a" 1:1 F--, StringWhole "b" 1:2 -T-, Name "c" 1:5 -T-, End "" 1:6 -T-
"\\n\\r\\t\\0\\"\\'\\\\" => StringWhole "\n\r\t\x00"'\\" 1:1 F--, End "" 1:17 -T-
"a\tb\x00\x7f'//*(" => StringWhole "a\tb\x00\x7f'//*(" 1:1 F--, End "" 1:13 -T-
"h\xc3\xa9\xe2\x82\xac\xf0\x9f\x98\x80" x => StringWhole "h\xc3\xa9\xe2\x82\xac\xf0\x9f\x98\x80" 1:1 F--, Name "x" 1:14 --S, End "" 1:15 -T-
"a""b" => StringWhole "a" 1:1 F--, StringWhole "b" 1:4 -T-, End "" 1:7 -T-
"\\q" => refused L2 1:1
x = "\\x41" => refused L2 1:5
"\\ " => refused L2 1:1
"\\U{41}" => refused L2 1:1
-- \u{ }
"\\u{0}" => StringWhole "\x00" 1:1 F--, End "" 1:8 -T-
"\\u{41}\\u{e9}\\u{E9}" => StringWhole "A\xc3\xa9\xc3\xa9" 1:1 F--, End "" 1:21 -T-
"\\u{7FF}\\u{800}\\u{FFFF}\\u{10000}" => StringWhole "\xdf\xbf\xe0\xa0\x80\xef\xbf\xbf\xf0\x90\x80\x80" 1:1 F--, End "" 1:34 -T-
"\\u{10FFFF}" => StringWhole "\xf4\x8f\xbf\xbf" 1:1 F--, End "" 1:13 -T-
"\\u{D7FF}\\u{E000}" => StringWhole "\xed\x9f\xbf\xee\x80\x80" 1:1 F--, End "" 1:19 -T-
"\\u{D800}" => refused L2 1:1
"\\u{DFFF}" => refused L2 1:1
"\\u{110000}" => refused L2 1:1
"\\u{FFFFFFFF}" => refused L2 1:1
"\\u{0000007A}" => StringWhole "z" 1:1 F--, End "" 1:15 -T-
"\\u{00000007A}" => refused L2 1:1
"\\u{}" => refused L2 1:1
"\\u{G}" => refused L2 1:1
"\\u{ 41}" => refused L2 1:1
"\\u41" => refused L2 1:1
"\\u{41" => refused L2 1:1
-- Three quotes
""" => refused L2 1:1
x """a""" => refused L2 1:3
"""" => refused L2 1:1
"a""" => StringWhole "a" 1:1 F--, StringWhole "" 1:4 -T-, End "" 1:6 -T-
"a"""" => refused L2 1:4
-- Strings that are not closed
" => refused L3 1:1
x = "abc => refused L3 1:5
"abc\nx" => refused L3 1:1
a\n  "b\n" => refused L3 2:3
"a\\" => refused L3 1:1
"abc\r\n => refused L2 1:1
"abc\rd" => refused L2 1:1
"abc\\\nd" => refused L2 1:1
"abc\\ => refused L2 1:1
"\\u{4\n1}" => refused L2 1:1
"\\u{41 => refused L2 1:1
-- Strings with \( ), and strings in strings
"\\(x)" => StringStart "" 1:1 F--, Name "x" 1:4 -T-, StringLast "" 1:5 -T-, End "" 1:7 -T-
"a\\(x)b\\(y)c" => StringStart "a" 1:1 F--, Name "x" 1:5 -T-, StringMiddle "b" 1:6 -T-, Name "y" 1:10 -T-, StringLast "c" 1:11 -T-, End "" 1:14 -T-
"\\n\\( x )\\u{41}" => StringStart "\n" 1:1 F--, Name "x" 1:7 --S, StringLast "A" 1:9 --S, End "" 1:17 -T-
"\\(f(1))" => StringStart "" 1:1 F--, Name "f" 1:4 -T-, LeftParen "(" 1:5 -T-, Integer "1" 1:6 -T-, RightParen ")" 1:7 -T-, StringLast "" 1:8 -T-, End "" 1:10 -T-
"\\([)" => StringStart "" 1:1 F--, LeftBracket "[" 1:4 -T-, StringLast "" 1:5 -T-, End "" 1:7 -T-
"\\(})" } => StringStart "" 1:1 F--, RightBrace "}" 1:4 -T-, StringLast "" 1:5 -T-, RightBrace "}" 1:8 --S, End "" 1:9 -T-
"\\()" => StringStart "" 1:1 F--, StringLast "" 1:4 -T-, End "" 1:6 -T-
"\\(a b)" => StringStart "" 1:1 F--, Name "a" 1:4 -T-, Name "b" 1:6 --S, StringLast "" 1:7 -T-, End "" 1:9 -T-
"\\(x)" ) => StringStart "" 1:1 F--, Name "x" 1:4 -T-, StringLast "" 1:5 -T-, RightParen ")" 1:8 --S, End "" 1:9 -T-
"a\\("b")c" => StringStart "a" 1:1 F--, StringWhole "b" 1:5 -T-, StringLast "c" 1:8 -T-, End "" 1:11 -T-
"\\("(")" => StringStart "" 1:1 F--, StringWhole "(" 1:4 -T-, StringLast "" 1:7 -T-, End "" 1:9 -T-
"\\("\\(x)y")" => StringStart "" 1:1 F--, StringStart "" 1:4 -T-, Name "x" 1:7 -T-, StringLast "y" 1:8 -T-, StringLast "" 1:11 -T-, End "" 1:13 -T-
"\\("")" => StringStart "" 1:1 F--, StringWhole "" 1:4 -T-, StringLast "" 1:6 -T-, End "" 1:8 -T-
"\\(x)"" => refused L3 1:7
"\\(x)""" => StringStart "" 1:1 F--, Name "x" 1:4 -T-, StringLast "" 1:5 -T-, StringWhole "" 1:7 -T-, End "" 1:9 -T-
"\\(/*)*/x)" => StringStart "" 1:1 F--, Name "x" 1:9 ---, StringLast "" 1:10 -T-, End "" 1:12 -T-
"\\(a\r)" => StringStart "" 1:1 F--, Name "a" 1:4 -T-, StringLast "" 1:6 --S, End "" 1:8 -T-
x "\\(#)" => refused L2 1:3
"\\(#)" => refused L2 1:1
"\\("a\\q")" => refused L2 1:1
"\\(""")" => refused L2 1:1
"\\(\xc3\xa9)" => refused L2 1:1
"\\(a)\\q" => refused L2 1:1
"\\(a\n)" => refused L3 1:1
"\\(a => refused L3 1:1
"\\(a) => refused L3 1:1
"\\("a\nb")" => refused L3 1:1
"\\("a")\nb" => refused L3 1:1
"\\(a // )"\n => refused L3 1:1
"\\(/*\n*/a)" => refused L3 1:1
"\\(/*a)" => refused L3 1:1
"\\(9223372036854775808)" => refused L4 1:4
"\\(9223372036854775808)\\q" => refused L2 1:1
-- Comments
// a\nb => Name "b" 2:1 F-S, End "" 2:2 -T-
// => End "" 1:3 F--
a // x => Name "a" 1:1 F--, End "" 1:7 ---
a//=b\nc => Name "a" 1:1 F--, Name "c" 2:1 F-S, End "" 2:2 -T-
// a\rb\nc => Name "c" 2:1 F-S, End "" 2:2 -T-
// /* "\na => Name "a" 2:1 F-S, End "" 2:2 -T-
/**/ => End "" 1:5 F--
a/**/b => Name "a" 1:1 F--, Name "b" 1:6 ---, End "" 1:7 -T-
/***/a => Name "a" 1:6 F--, End "" 1:7 -T-
/* // */a => Name "a" 1:9 F--, End "" 1:10 -T-
/* " */a => Name "a" 1:8 F--, End "" 1:9 -T-
/*/**/*/a => Name "a" 1:9 F--, End "" 1:10 -T-
/* a /* b */ c */ d => Name "d" 1:19 F-S, End "" 1:20 -T-
a/b/c => Name "a" 1:1 F--, Slash "/" 1:2 -T-, Name "b" 1:3 -T-, Slash "/" 1:4 -T-, Name "c" 1:5 -T-, End "" 1:6 -T-
a*/*x*/b => Name "a" 1:1 F--, Star "*" 1:2 -T-, Name "b" 1:8 ---, End "" 1:9 -T-
*/ => Star "*" 1:1 F--, Slash "/" 1:2 -T-, End "" 1:3 -T-
/* => refused L3 1:1
/*/ => refused L3 1:1
a /* b => refused L3 1:3
/*/**/ => refused L3 1:1
a\n /* /* */ b\n => refused L3 2:2
/* /* => refused L3 1:1
/* *\n/ => refused L3 1:1
-- Lines, white space, the end
 => End "" 1:1 F--
\n => End "" 1:2 F-S
\x20\t\r\n => End "" 1:5 F-S
a\n => Name "a" 1:1 F--, End "" 1:3 --S
a \n\n => Name "a" 1:1 F--, End "" 2:2 F-S
func f() {\n => Func "func" 1:1 F--, Name "f" 1:6 --S, LeftParen "(" 1:7 -T-, RightParen ")" 1:8 -T-, LeftBrace "{" 1:10 --S, End "" 1:12 --S
a\r\nb\r\n => Name "a" 1:1 F--, Name "b" 2:1 F-S, End "" 2:4 --S
a\rb => Name "a" 1:1 F--, Name "b" 1:3 --S, End "" 1:4 -T-
\ta\t\tb => Name "a" 1:2 F-S, Name "b" 1:5 --S, End "" 1:6 -T-
a\n\n  b c => Name "a" 1:1 F--, Name "b" 3:3 F-S, Name "c" 3:5 --S, End "" 3:6 -T-
/* */ a b => Name "a" 1:7 F-S, Name "b" 1:9 --S, End "" 1:10 -T-
a /*\n*/ b => Name "a" 1:1 F--, Name "b" 2:4 F-S, End "" 2:5 -T-
a /*\n*/b c => Name "a" 1:1 F--, Name "b" 2:3 F--, Name "c" 2:5 --S, End "" 2:6 -T-
a ? b => Name "a" 1:1 F--, Question "?" 1:3 --S, Name "b" 1:5 --S, End "" 1:6 -T-
a/**/? b => Name "a" 1:1 F--, Question "?" 1:6 ---, Name "b" 1:8 --S, End "" 1:9 -T-
a /**/? b => Name "a" 1:1 F--, Question "?" 1:7 ---, Name "b" 1:9 --S, End "" 1:10 -T-
a? b => Name "a" 1:1 F--, Question "?" 1:2 -T-, Name "b" 1:4 --S, End "" 1:5 -T-
a\n-b\n- b\n-/**/b => Name "a" 1:1 F--, Minus "-" 2:1 F-S, Name "b" 2:2 -T-, Minus "-" 3:1 F-S, Name "b" 3:3 --S, Minus "-" 4:1 F-S, Name "b" 4:6 ---, End "" 4:7 -T-
\xe2\x80\xa8 => refused L2 1:1
-- Bytes that are not UTF-8
\x80 => refused L1 1:1
a \xff => refused L1 1:3
\n\n  \xfe => refused L1 3:3
a \xc3 => refused L1 1:3
\xc3a => refused L1 1:1
\xe2\x82a => refused L1 1:1
\xf0\x9f\x98\x20 => refused L1 1:1
\xc0\x80 => refused L1 1:1
\xe0\x9f\xbf => refused L1 1:1
\xf0\x8f\xbf\xbf => refused L1 1:1
\xed\xa0\x80 => refused L1 1:1
\xf4\x90\x80\x80 => refused L1 1:1
\xf8\x88\x80\x80\x80 => refused L1 1:1
// \xe2\x82\n => refused L1 1:4
/* \xf0\x9f\x98 */ a => refused L1 1:4
//\xc3\xa9\xff => refused L1 1:5
// \xc3\xa9 \xe2\x82\xac \xf0\x9f\x98\x80\na => Name "a" 2:1 F-S, End "" 2:2 -T-
/*\xc3\xa9*/a => Name "a" 1:7 F--, End "" 1:8 -T-
"\xff" => refused L2 1:1
a "b\xe2\x82" => refused L2 1:3
"\xf0\x9f\x98\n => refused L2 1:1
"\xed\xa0\x80" => refused L2 1:1
"\\(\xff)" => refused L2 1:1
-- Two broken rules: the earlier place is the answer, and at one place the first of L1 to L5
9223372036854775808 # => refused L4 1:1
# 9223372036854775808 => refused L2 1:1
# \xff => refused L2 1:1
\xff # => refused L1 1:1
9223372036854775808 "a\n\xff => refused L4 1:1
"a\n\xff => refused L3 1:1
/*\xff => refused L3 1:1
\xff/* => refused L1 1:1
"a" "b\n# \xff => refused L3 1:5
//\xff\n# => refused L1 1:3
-- the end, and white space
\x20 => End "" 1:2 F-S
a\n\n => Name "a" 1:1 F--, End "" 2:2 F-S
a\r\nb => Name "a" 1:1 F--, Name "b" 2:1 F-S, End "" 2:2 -T-
\ta\tb => Name "a" 1:2 F-S, Name "b" 1:4 --S, End "" 1:5 -T-
-- names
_ _b => Underscore "_" 1:1 F--, Name "_b" 1:3 --S, End "" 1:5 -T-
let a => Let "let" 1:1 F--, Name "a" 1:5 --S, End "" 1:6 -T-
-- integers
1a => Integer "1" 1:1 F--, Name "a" 1:2 -T-, End "" 1:3 -T-
-- marks that could be cut two ways
1..2 => Integer "1" 1:1 F--, Dot "." 1:2 -T-, Dot "." 1:3 -T-, Integer "2" 1:4 -T-, End "" 1:5 -T-
.... => Ellipsis "..." 1:1 F--, Dot "." 1:4 -T-, End "" 1:5 -T-
..<= => HalfOpenRange "..<" 1:1 F--, Assign "=" 1:4 -T-, End "" 1:5 -T-
a.b => Name "a" 1:1 F--, Dot "." 1:2 -T-, Name "b" 1:3 -T-, End "" 1:4 -T-
a?.b => Name "a" 1:1 F--, Question "?" 1:2 -T-, Dot "." 1:3 -T-, Name "b" 1:4 -T-, End "" 1:5 -T-
->= => Arrow "->" 1:1 F--, Assign "=" 1:3 -T-, End "" 1:4 -T-
\x2d-> => Minus "-" 1:1 F--, Arrow "->" 1:2 -T-, End "" 1:4 -T-
-=- => MinusAssign "-=" 1:1 F--, Minus "-" 1:3 -T-, End "" 1:4 -T-
=== => EqualEqual "==" 1:1 F--, Assign "=" 1:3 -T-, End "" 1:4 -T-
=!= => Assign "=" 1:1 F--, NotEqual "!=" 1:2 -T-, End "" 1:4 -T-
!== => NotEqual "!=" 1:1 F--, Assign "=" 1:3 -T-, End "" 1:4 -T-
!! => Bang "!" 1:1 F--, Bang "!" 1:2 -T-, End "" 1:3 -T-
a!=b => Name "a" 1:1 F--, NotEqual "!=" 1:2 -T-, Name "b" 1:4 -T-, End "" 1:5 -T-
<== => LessEqual "<=" 1:1 F--, Assign "=" 1:3 -T-, End "" 1:4 -T-
<-> => Less "<" 1:1 F--, Arrow "->" 1:2 -T-, End "" 1:4 -T-
>>= => Greater ">" 1:1 F--, GreaterEqual ">=" 1:2 -T-, End "" 1:4 -T-
??? => Coalesce "??" 1:1 F--, Question "?" 1:3 -T-, End "" 1:4 -T-
???? => Coalesce "??" 1:1 F--, Coalesce "??" 1:3 -T-, End "" 1:5 -T-
&&&& => And "&&" 1:1 F--, And "&&" 1:3 -T-, End "" 1:5 -T-
|||| => Or "||" 1:1 F--, Or "||" 1:3 -T-, End "" 1:5 -T-
++= => Plus "+" 1:1 F--, PlusAssign "+=" 1:2 -T-, End "" 1:4 -T-
**= => Star "*" 1:1 F--, StarAssign "*=" 1:2 -T-, End "" 1:4 -T-
/=/ => SlashAssign "/=" 1:1 F--, Slash "/" 1:3 -T-, End "" 1:4 -T-
%%= => Percent "%" 1:1 F--, PercentAssign "%=" 1:2 -T-, End "" 1:4 -T-
([{}]) => LeftParen "(" 1:1 F--, LeftBracket "[" 1:2 -T-, LeftBrace "{" 1:3 -T-, RightBrace "}" 1:4 -T-, RightBracket "]" 1:5 -T-, RightParen ")" 1:6 -T-, End "" 1:7 -T-
a:b,c;d => Name "a" 1:1 F--, Colon ":" 1:2 -T-, Name "b" 1:3 -T-, Comma "," 1:4 -T-, Name "c" 1:5 -T-, Semicolon ";" 1:6 -T-, Name "d" 1:7 -T-, End "" 1:8 -T-
-- comments
a//b => Name "a" 1:1 F--, End "" 1:5 ---
a //b\nc => Name "a" 1:1 F--, Name "c" 2:1 F-S, End "" 2:2 -T-
// /*\na => Name "a" 2:1 F-S, End "" 2:2 -T-
=//= => Assign "=" 1:1 F--, End "" 1:5 ---
a/*\n*/b => Name "a" 1:1 F--, Name "b" 2:3 F--, End "" 2:4 -T-
a /*\n\n*/ b c => Name "a" 1:1 F--, Name "b" 3:4 F-S, Name "c" 3:6 --S, End "" 3:7 -T-
a /* /* b */ */ c => Name "a" 1:1 F--, Name "c" 1:17 --S, End "" 1:18 -T-
/* // */ a => Name "a" 1:10 F-S, End "" 1:11 -T-
/*"*/ => End "" 1:6 F--
a /* x */? b => Name "a" 1:1 F--, Question "?" 1:10 ---, Name "b" 1:12 --S, End "" 1:13 -T-
-- strings
"a b" => StringWhole "a b" 1:1 F--, End "" 1:6 -T-
"//" => StringWhole "//" 1:1 F--, End "" 1:5 -T-
"/*" => StringWhole "/*" 1:1 F--, End "" 1:5 -T-
"(" => StringWhole "(" 1:1 F--, End "" 1:4 -T-
"\t" => StringWhole "\t" 1:1 F--, End "" 1:4 -T-
"\x00" => StringWhole "\x00" 1:1 F--, End "" 1:4 -T-
"\x7f" => StringWhole "\x7f" 1:1 F--, End "" 1:4 -T-
"\xc3\xa9\xe2\x82\xac\xf0\x9f\x98\x80" => StringWhole "\xc3\xa9\xe2\x82\xac\xf0\x9f\x98\x80" 1:1 F--, End "" 1:12 -T-
"\xc3\xa9" a => StringWhole "\xc3\xa9" 1:1 F--, Name "a" 1:6 --S, End "" 1:7 -T-
"" "" => StringWhole "" 1:1 F--, StringWhole "" 1:4 --S, End "" 1:6 -T-
-- strings in pieces
"a\\(b)c\\(d)e" => StringStart "a" 1:1 F--, Name "b" 1:5 -T-, StringMiddle "c" 1:6 -T-, Name "d" 1:10 -T-, StringLast "e" 1:11 -T-, End "" 1:14 -T-
"\\n\\(a)\\u{41}\\(b)\\t" => StringStart "\n" 1:1 F--, Name "a" 1:6 -T-, StringMiddle "A" 1:7 -T-, Name "b" 1:16 -T-, StringLast "\t" 1:17 -T-, End "" 1:21 -T-
"\\((a))" => StringStart "" 1:1 F--, LeftParen "(" 1:4 -T-, Name "a" 1:5 -T-, RightParen ")" 1:6 -T-, StringLast "" 1:7 -T-, End "" 1:9 -T-
"\\([{)" => StringStart "" 1:1 F--, LeftBracket "[" 1:4 -T-, LeftBrace "{" 1:5 -T-, StringLast "" 1:6 -T-, End "" 1:8 -T-
"\\( a\r)" => StringStart "" 1:1 F--, Name "a" 1:5 --S, StringLast "" 1:7 --S, End "" 1:9 -T-
"\\("x")" => StringStart "" 1:1 F--, StringWhole "x" 1:4 -T-, StringLast "" 1:7 -T-, End "" 1:9 -T-
"a\\("b\\(c)d")e" => StringStart "a" 1:1 F--, StringStart "b" 1:5 -T-, Name "c" 1:9 -T-, StringLast "d" 1:10 -T-, StringLast "e" 1:13 -T-, End "" 1:16 -T-
"\\(/*)*/)" => StringStart "" 1:1 F--, StringLast "" 1:9 ---, End "" 1:11 -T-
("a\\(b)") => LeftParen "(" 1:1 F--, StringStart "a" 1:2 -T-, Name "b" 1:6 -T-, StringLast "" 1:7 -T-, RightParen ")" 1:9 -T-, End "" 1:10 -T-
"\\(a)""b" => StringStart "" 1:1 F--, Name "a" 1:4 -T-, StringLast "" 1:5 -T-, StringWhole "b" 1:7 -T-, End "" 1:10 -T-
-- no token begins here
@ => refused L2 1:1
$ => refused L2 1:1
^ => refused L2 1:1
~ => refused L2 1:1
` => refused L2 1:1
' => refused L2 1:1
\\ => refused L2 1:1
& => refused L2 1:1
| => refused L2 1:1
\x00 => refused L2 1:1
\x0b => refused L2 1:1
\x0c => refused L2 1:1
||| => refused L2 1:3
&&& => refused L2 1:3
a # => refused L2 1:3
a \xc3\xa9 => refused L2 1:3
||| => refused L2 1:3
-- strings with a malformed piece
"\\a" => refused L2 1:1
"\\N" => refused L2 1:1
"\\x41" => refused L2 1:1
"\\1" => refused L2 1:1
"\\u" => refused L2 1:1
"\\u{41 }" => refused L2 1:1
"\\u{-1}" => refused L2 1:1
"\\u{000000041}" => refused L2 1:1
"\\u{0000000000000041}" => refused L2 1:1
"abc\\\n => refused L2 1:1
"\\ => refused L2 1:1
"a\r" => refused L2 1:1
"a\\(b)\\q" => refused L2 1:1
"a\\(b)\r" => refused L2 1:1
"""a""" => refused L2 1:1
-- the outermost string stands for what is in it
"\\(a|b)" => refused L2 1:1
a "\\("\\('))" => refused L2 1:3
-- strings and comments that are not closed
"abc => refused L3 1:1
"abc\n" => refused L3 1:1
"a\\( => refused L3 1:1
"a\\(b => refused L3 1:1
"a\\(b\n)" => refused L3 1:1
"a\\(b\r\n)" => refused L3 1:1
"a\\(b)c => refused L3 1:1
"a\\(b)c\n" => refused L3 1:1
"\\("a => refused L3 1:1
"\\(()" => refused L3 1:1
"\\(/* => refused L3 1:1
"\\(/*\n*/)" => refused L3 1:1
"\\(//)" => refused L3 1:1
a "\\("b\n")" => refused L3 1:3
"" " => refused L3 1:4
a\nb = "c => refused L3 2:5
/** => refused L3 1:1
/* * => refused L3 1:1
/* /* */ => refused L3 1:1
/*//*/ => refused L3 1:1
a /* b /* */\n\n => refused L3 1:3
-- integers above the greatest
9_223_372_036_854_775_808 => refused L4 1:1
09223372036854775808 => refused L4 1:1
9223372036854775810 => refused L4 1:1
10000000000000000000 => refused L4 1:1
18446744073709551615 => refused L4 1:1
\n 9223372036854775807 9223372036854775_808 => refused L4 2:22
-- the first of several, by place, then by order
9223372036854775808 9223372036854775809 => refused L4 1:1
9223372036854775808 \xff => refused L4 1:1
9223372036854775808 "a => refused L4 1:1
"\xff => refused L2 1:1
"a\\(9223372036854775808)\xff => refused L2 1:1
"\\(9223372036854775808 => refused L3 1:1
\xff" => refused L1 1:1
/*  \xff */ # => refused L1 1:5
/* \n\xff */ # => refused L1 2:1
//\x7f\xe2\x82a => refused L1 1:4
-- bytes that are not UTF-8, each between tokens, in a comment and in a string
a \x80 b => refused L1 1:3
/* \x80 */ => refused L1 1:4
a "\x80" => refused L2 1:3
"\\(a\x80)" => refused L2 1:1
\xbf => refused L1 1:1
a \xbf b => refused L1 1:3
/* \xbf */ => refused L1 1:4
a "\xbf" => refused L2 1:3
"\\(a\xbf)" => refused L2 1:1
a \xc0\x80 b => refused L1 1:3
/* \xc0\x80 */ => refused L1 1:4
a "\xc0\x80" => refused L2 1:3
"\\(a\xc0\x80)" => refused L2 1:1
\xc1\xbf => refused L1 1:1
a \xc1\xbf b => refused L1 1:3
/* \xc1\xbf */ => refused L1 1:4
a "\xc1\xbf" => refused L2 1:3
"\\(a\xc1\xbf)" => refused L2 1:1
\xc3 => refused L1 1:1
a \xc3 b => refused L1 1:3
/* \xc3 */ => refused L1 1:4
a "\xc3" => refused L2 1:3
"\\(a\xc3)" => refused L2 1:1
\xc3( => refused L1 1:1
a \xc3( b => refused L1 1:3
/* \xc3( */ => refused L1 1:4
a "\xc3(" => refused L2 1:3
"\\(a\xc3()" => refused L2 1:1
\xe0\x80\x80 => refused L1 1:1
a \xe0\x80\x80 b => refused L1 1:3
/* \xe0\x80\x80 */ => refused L1 1:4
a "\xe0\x80\x80" => refused L2 1:3
"\\(a\xe0\x80\x80)" => refused L2 1:1
a \xe0\x9f\xbf b => refused L1 1:3
/* \xe0\x9f\xbf */ => refused L1 1:4
a "\xe0\x9f\xbf" => refused L2 1:3
"\\(a\xe0\x9f\xbf)" => refused L2 1:1
\xe2 => refused L1 1:1
a \xe2 b => refused L1 1:3
/* \xe2 */ => refused L1 1:4
a "\xe2" => refused L2 1:3
"\\(a\xe2)" => refused L2 1:1
\xe2\x82 => refused L1 1:1
a \xe2\x82 b => refused L1 1:3
/* \xe2\x82 */ => refused L1 1:4
a "\xe2\x82" => refused L2 1:3
"\\(a\xe2\x82)" => refused L2 1:1
\xe2(\xac => refused L1 1:1
a \xe2(\xac b => refused L1 1:3
/* \xe2(\xac */ => refused L1 1:4
a "\xe2(\xac" => refused L2 1:3
"\\(a\xe2(\xac)" => refused L2 1:1
a \xed\xa0\x80 b => refused L1 1:3
/* \xed\xa0\x80 */ => refused L1 1:4
a "\xed\xa0\x80" => refused L2 1:3
"\\(a\xed\xa0\x80)" => refused L2 1:1
\xed\xbf\xbf => refused L1 1:1
a \xed\xbf\xbf b => refused L1 1:3
/* \xed\xbf\xbf */ => refused L1 1:4
a "\xed\xbf\xbf" => refused L2 1:3
"\\(a\xed\xbf\xbf)" => refused L2 1:1
\xf0 => refused L1 1:1
a \xf0 b => refused L1 1:3
/* \xf0 */ => refused L1 1:4
a "\xf0" => refused L2 1:3
"\\(a\xf0)" => refused L2 1:1
\xf0\x9f => refused L1 1:1
a \xf0\x9f b => refused L1 1:3
/* \xf0\x9f */ => refused L1 1:4
a "\xf0\x9f" => refused L2 1:3
"\\(a\xf0\x9f)" => refused L2 1:1
\xf0\x9f\x98 => refused L1 1:1
a \xf0\x9f\x98 b => refused L1 1:3
/* \xf0\x9f\x98 */ => refused L1 1:4
a "\xf0\x9f\x98" => refused L2 1:3
"\\(a\xf0\x9f\x98)" => refused L2 1:1
\xf0\x80\x80\x80 => refused L1 1:1
a \xf0\x80\x80\x80 b => refused L1 1:3
/* \xf0\x80\x80\x80 */ => refused L1 1:4
a "\xf0\x80\x80\x80" => refused L2 1:3
"\\(a\xf0\x80\x80\x80)" => refused L2 1:1
a \xf0\x8f\xbf\xbf b => refused L1 1:3
/* \xf0\x8f\xbf\xbf */ => refused L1 1:4
a "\xf0\x8f\xbf\xbf" => refused L2 1:3
"\\(a\xf0\x8f\xbf\xbf)" => refused L2 1:1
a \xf4\x90\x80\x80 b => refused L1 1:3
/* \xf4\x90\x80\x80 */ => refused L1 1:4
a "\xf4\x90\x80\x80" => refused L2 1:3
"\\(a\xf4\x90\x80\x80)" => refused L2 1:1
\xf5\x80\x80\x80 => refused L1 1:1
a \xf5\x80\x80\x80 b => refused L1 1:3
/* \xf5\x80\x80\x80 */ => refused L1 1:4
a "\xf5\x80\x80\x80" => refused L2 1:3
"\\(a\xf5\x80\x80\x80)" => refused L2 1:1
\xfe => refused L1 1:1
a \xfe b => refused L1 1:3
/* \xfe */ => refused L1 1:4
a "\xfe" => refused L2 1:3
"\\(a\xfe)" => refused L2 1:1
\xff => refused L1 1:1
a \xff b => refused L1 1:3
/* \xff */ => refused L1 1:4
a "\xff" => refused L2 1:3
"\\(a\xff)" => refused L2 1:1
"##;
