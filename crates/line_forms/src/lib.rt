//! Definitions of lines of text: their words and numbers, how they are read one after the other, the lines of a listing, what is
//! looked for in a JSON value, and the texts of borders and faults. There is no code. A JSON value is one of `serde_json`.
#![tactic(auto)]
