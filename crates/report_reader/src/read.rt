//! The text of a section read.

ghost use Rattle.std.specs.Prelude.{◌≡◌, ◌≤◌, ◌++◌, IfErr, IfOk, MatchResult, flat_map, length};
ghost use Rattle.std.specs.List.{AllByRecursion};
ghost use Rattle.tube_report.specs.Lines.{last_line};
ghost use Rattle.report_reader.specs.Breaks.{IsFault};
ghost use Rattle.report_reader.specs.declared.section.Section.{Section};
ghost use Rattle.report_reader.specs.Sections.{IsHead, IsLine, IsSection, head_text, line_text, text_of};

use crate::lines::{Head, head_of, is_last, line_of};
use crate::section::{Lines, Section, SectionFault};
use crate::words::cut;
use std::alloc::Global;

// The lines after the first one, up to the last one.
fn read_lines(alloc: Global, head: Head, bytes: &[u8]) -> Result<Lines, SectionFault>
    requires head { IsHead head }
    requires room { length bytes.now ≤ 1000000000 }
    ensures ok { IfOk result (λ lines. AllByRecursion IsLine lines × (flat_map line_text lines ++ last_line head.number ≡ bytes.now)) }
    ensures fault { IfErr result (IsFault (head_text head ++ bytes.now)) }
{
    let mut lines = Vec::new(alloc);
    let mut rest = bytes;
    let mut at = 2;
    while let Some((text, others)) = cut(rest, b'\n') {
        if is_last(text, head.number) {
            if others.is_empty() {
                return Ok(Lines::new(lines));
            }
            return Err(SectionFault::BadSection(at + 1));
        }
        let Some(line) = line_of(alloc, text)? else {
            return Err(SectionFault::BadSection(at));
        };
        if lines.push(line).is_err() {
            return Err(SectionFault::NoMemory);
        }
        rest = others;
        at += 1;
    }
    Err(SectionFault::BadSection(at))
}

fn section_of(alloc: Global, bytes: &[u8]) -> Result<Section, SectionFault>
    requires { length bytes.now ≤ 1000000000 }
    ensures ok { IfOk result (λ section. IsSection section × (text_of section ≡ bytes.now)) }
    ensures fault { IfErr result (IsFault bytes.now) }
{
    let Some((text, rest)) = cut(bytes, b'\n') else {
        return Err(SectionFault::BadSection(1));
    };
    let Some(head) = head_of(text) else {
        return Err(SectionFault::BadSection(1));
    };
    let lines = read_lines(alloc, head, rest)?;
    Ok(Section {
        number: head.number,
        verdict: head.verdict,
        lines,
    })
}

/// The section whose text this is. Its lines may stand in any order, whatever the verdict. Another text is
/// refused with the number, from 1 on, of the first line that breaks it: where the bytes end too early, that
/// of the line that is missing or unfinished, and where bytes follow the last line, that of the line after it.
pub fn read_section(alloc: Global, bytes: &[u8]) -> Result<Section, SectionFault>
    requires { length bytes.now ≤ 1000000000 }
    // What is read has this text.
    ensures ok { IfOk result (λ section. IsSection section × (text_of section ≡ bytes.now)) }
    // The text of a section is read as that section, unless memory is refused.
    ensures only { (s : Section) → IsSection s → text_of s ≡ bytes.now → MatchResult result (λ section. section ≡ s) (λ e. e ≡ SectionFault.NoMemory) }
    // Which line is the first that breaks another text.
    ensures fault { IfErr result (IsFault bytes.now) }
{
    section_of(alloc, bytes)
}
