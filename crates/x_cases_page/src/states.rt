//! The states that name the desk's texts.

use crate::request::octets_of;
use desk_http::DeskTexts;
use std::alloc::Global;
use std::str::Split;

fn note(alloc: Global, texts: &mut DeskTexts, piece: &str) -> Option<()> {
    let text = octets_of(alloc, piece)?;
    texts.note(alloc, &text).ok()
}

fn note_all(alloc: Global, texts: &mut DeskTexts, pieces: Split<'_, &str>) -> Option<()> {
    for piece in pieces {
        note(alloc, texts, piece)?;
    }
    Some(())
}

fn line_of(alloc: Global, texts: &DeskTexts, run: &str) -> Option<Vec<u8>> {
    let mut line = Vec::new(alloc);
    texts.append_state(alloc, run.as_bytes(), &mut line).ok()?;
    Some(line)
}

/// Whether this line names the last of texts that come one after another: `RUN ; TEXT ; TEXT ..`.
pub fn state_is(alloc: Global, text: &str, wanted: &str) -> Option<bool> {
    let (run, pieces) = text.split_once(" ; ")?;
    let mut texts = DeskTexts::new(alloc);
    let noted = note_all(alloc, &mut texts, pieces.split(" ; "));
    let line = line_of(alloc, &texts, run);
    drop(texts);
    noted?;
    Some(line?.as_slice() == octets_of(alloc, wanted)?.as_slice())
}
