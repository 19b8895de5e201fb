// Document 01, "Sessions": the lines that a session prints, one for each answer, put into lent bytes as far as they fit. What is printed is a
// list of bytes that the rules compute (rules, Session); `page` is what lent bytes hold of it, and each function here puts a rule's line behind
// what is there, or says that not all of it fits; no line has more than 128 bytes (`specs/Short.antt`). Nothing here calls the scan. `session`
// answers calls with these lines, `turns` prints them.
#![tactic(auto)]

pub mod answers; // answers.rt: a line for each answer
mod columns; // columns.rt: the columns of an output
mod digits; // digits.rt: a number by its digits
mod page; // page.rt: text put into lent bytes as far as it fits

pub use page::Written;
