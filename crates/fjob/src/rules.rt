// What a person is told of a statement that did what a program may not.
use fj_explain::{Broken, explain_rule, rule_words};
use fj_value::Rule;
use std::alloc::Global;
use std::io::{self, Write};

/// Tells the rule that a statement broke, with what it is about where there is a text and memory.
pub fn tell_prohibited<W: Write>(
    err: &mut W,
    alloc: Global,
    line: u32,
    rule: Rule,
    text: Option<&[u8]>,
) -> io::Result<()> {
    write!(err, "fjob: line {line}: prohibition {}: ", rule_name(rule))?;
    match broken(alloc, text, line, rule) {
        Some(said) => writeln!(err, "{}", said.what),
        None => writeln!(err, "{}", rule_words(rule)),
    }
}

fn rule_name(rule: Rule) -> &'static str {
    match rule {
        Rule::P1 => "P1",
        Rule::P2 => "P2",
        Rule::P3 => "P3",
        Rule::P4 => "P4",
        Rule::P5 => "P5",
    }
}

/// What is known of a broken rule.
fn broken(alloc: Global, text: Option<&[u8]>, line: u32, rule: Rule) -> Option<Broken> {
    match explain_rule(alloc, text?, line, rule) {
        Ok(said) => said,
        Err(_) => None,
    }
}
