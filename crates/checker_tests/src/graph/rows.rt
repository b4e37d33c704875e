//! Graphs, with what is asked of them.
//!
//! A graph lists the successors of each number, from 0 on, parted by commas; `-` stands for none. A table of marks has a
//! digit for each number.

/// Behind the graph stand the numbers that are chosen. The answer marks those of them that stand on a cycle.
pub const CYCLES: &str = r##"
 / 1 => 
- / 1 => 0
0 / 1 => 1
0 / 0 => 0
1 - / 11 => 00
1 0 / 11 => 11
1 2 0 / 111 => 111
1 2 0 / 011 => 011
1 2 0 / 001 => 001
1 2 0 / 000 => 000
2 0 1 / 111 => 111
-- 0 leads to a cycle, and stands on none
1 2 1 / 111 => 011
1 2 1 / 100 => 000
1 1 / 11 => 01
-- 2 stands behind a cycle, and on none
1 0,2 - / 111 => 110
0,1 - / 11 => 10
-- Two ways to one number are no cycle
1,2 3 3 - / 1111 => 0000
-- The second successor leads back
1 2,0 - / 111 => 110
1,1 0,0 / 11 => 11
-- Two circles, apart, joined by an edge and joined by a number on none
1 0 3 2 / 0011 => 0011
1 0 3 2 / 1111 => 1111
1 0 3 2 - / 10101 => 10100
1 0,2 3 2 / 1111 => 1111
1 0,2 3 4 3 / 11111 => 11011
-- Two circles that share a number, and two that share an edge
1 0,2 1 / 111 => 111
1 2 0,1 / 111 => 111
3 0 1 2 4,0 / 11111 => 11111
-- Past the end of the graph there is no successor, and past the end of the table no mark
9 / 1 => 0
1 9,0 / 11 => 11
1 0 / 0 => 00
1 0 / 1 => 10
1 0 / 001 => 00
"##;

/// Behind the graph stand the numbers that are allowed. The answer marks the least set.
pub const LEAST: &str = r##"
 /  => 
- / 1 => 1
- / 0 => 0
1 2 - / 111 => 111
- 0 1 / 111 => 111
1 2 - / 110 => 000
- 0 1 / 101 => 100
-- A cycle, and what leads to it, is not in the least set
0 / 1 => 0
1 0 - / 111 => 001
1 2 1 - / 1111 => 0001
-- All successors must be in it
1,2 - - / 101 => 001
1,2 - - / 111 => 111
1,1 - / 11 => 11
-- Nothing past the end is in it
9 - / 11 => 01
"##;

/// Behind the graph stand the numbers that are passed through, and the greatest level. The answer has the levels.
pub const LEVELS: &str = r##"
 /  / 64 => 
- / 0 / 64 => 1
1 2 - / 000 / 64 => 3 2 1
- 0 1 / 000 / 64 => 1 2 3
-- The longest of several walks counts
1,2 2 - / 000 / 64 => 3 2 1
2,1 2 - / 000 / 64 => 3 2 1
-- At the bound, and above it
1 2 - / 000 / 3 => 3 2 1
1 2 - / 000 / 2 => 0 2 1
1 2 - / 000 / 0 => 0 0 0
-- A cycle has no level, nor has what leads to it
0 / 0 / 64 => 0
1 2 1 - / 0000 / 64 => 0 0 0 1
-- A number that is passed through does not count behind another
1 2 - / 010 / 64 => 2 2 1
1 - / 01 / 64 => 1 1
1 0 / 01 / 64 => 0 0
-- One of two in a row is passed through
1 2 3 - / 0110 / 64 => 3 2 2 1
-- Past the end of the graph there is nothing, and past the end of the table nothing is passed through
9 - / 00 / 64 => 1 1
1 9 / 01 / 64 => 1 1
1 2 - / 0 / 64 => 3 2 1
"##;

/// The answer has of each number the first of its strongly connected component.
pub const COMPONENTS: &str = r##"
 => 
- => 0
0 => 0
- - - => 0 1 2
1 2 - => 0 1 2
- 0 1 => 0 1 2
1 2 0 3 => 0 0 0 3
1 0 3 2 => 0 0 2 2
1 0,2 3 2 => 0 0 2 2
1,2 2,3 0 4 3 => 0 0 0 3 3
1 2 3,0 4 5 3 => 0 0 0 3 3 3
9 9,0 => 0 1
"##;
