//! Parses the text of a row.

use crate::setting::Setting;
use crate::step::Step;
use std::alloc::Global;

/// A row: its name, its setting, its segments, and what is told of them, a line each, without the last line feed.
#[derive(Drop)]
pub struct Row<'a> {
    pub name: &'a str,
    pub setting: Setting,
    pub steps: Vec<Step>,
    pub told: &'a str,
}

impl<'a> Row<'a> {
    /// Parses a row. `None` for another text, and without memory.
    pub fn read(alloc: Global, text: &'a str) -> Option<Row<'a>> {
        let (head, told) = text.split_once("\ntold")?;
        let (name, rest) = head.split_once('\n')?;
        let (setting, segments) = setting_and(rest);
        Some(Row {
            name,
            setting: Setting::read(setting)?,
            steps: steps_of(alloc, segments)?,
            told: told.strip_prefix('\n').unwrap_or(told),
        })
    }
}

/// The text of a setting, and the lines after it. An empty text and all lines, where there is no setting.
fn setting_and(text: &str) -> (&str, &str) {
    match text.strip_prefix("setting ") {
        Some(behind) => behind.split_once('\n').unwrap_or((behind, "")),
        None => ("", text),
    }
}

/// Parses segments, a line each.
fn steps_of(alloc: Global, lines: &str) -> Option<Vec<Step>> {
    let mut steps = Vec::new(alloc);
    for line in lines.lines() {
        steps.push(Step::read(alloc, line)?).ok()?;
    }
    Some(steps)
}
