//! What is wrong with a text or a statement, for a person: where a text is refused, and which variables and transfers a broken rule is about.
#![tactic(auto)]

mod before;
mod broken;
mod call;
mod declaration;
mod effect;
mod explanation;
mod format;
mod holder;
mod line;
mod named;
mod phrase;
mod rules;
mod specifiers;
mod spot;
mod token;
mod told;
mod twice;
mod undefined;
mod value;
mod waits;
mod words;

pub use broken::{Broken, explain_rule, rule_words};
pub use explanation::{Explanation, explain};
