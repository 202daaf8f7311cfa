//! The page's files by their names.
//! `tools/bridge make page` writes this file, from these files of web/:
//! all of them but page.html.

use crate::script_lines::{
    ADVICE_JS, HISTORY_JS, KEPT_JS, LEVELS_JS, LINES_JS, NEWS_JS, OVERVIEW_JS, PEOPLE_JS, PLOTS_JS,
    RULES_JS, STATS_JS,
};
use crate::script_view::{
    COUNTS_JS, DRAWING_JS, HANDS_JS, KNOWN_JS, LINK_JS, PAGE_JS, PLACES_JS, ROWS_JS, STREAM_JS,
    TAKING_JS, VIEW_JS,
};
use crate::style::PAGE_CSS;
use desk_http::AssetFile;
use std::alloc::{AllocError, Global};

fn push(
    files: &mut Vec<AssetFile>,
    name: &'static str,
    content: &'static [u8],
) -> Result<(), AllocError> {
    files.push(AssetFile { name, content })?;
    Ok(())
}

fn push_script_lines(files: &mut Vec<AssetFile>) -> Result<(), AllocError> {
    push(files, "advice.js", ADVICE_JS)?;
    push(files, "lines.js", LINES_JS)?;
    push(files, "overview.js", OVERVIEW_JS)?;
    push(files, "kept.js", KEPT_JS)?;
    push(files, "levels.js", LEVELS_JS)?;
    push(files, "stats.js", STATS_JS)?;
    push(files, "people.js", PEOPLE_JS)?;
    push(files, "news.js", NEWS_JS)?;
    push(files, "plots.js", PLOTS_JS)?;
    push(files, "rules.js", RULES_JS)?;
    push(files, "history.js", HISTORY_JS)
}

fn push_script_view(files: &mut Vec<AssetFile>) -> Result<(), AllocError> {
    push(files, "known.js", KNOWN_JS)?;
    push(files, "view.js", VIEW_JS)?;
    push(files, "rows.js", ROWS_JS)?;
    push(files, "page.js", PAGE_JS)?;
    push(files, "taking.js", TAKING_JS)?;
    push(files, "link.js", LINK_JS)?;
    push(files, "stream.js", STREAM_JS)?;
    push(files, "counts.js", COUNTS_JS)?;
    push(files, "places.js", PLACES_JS)?;
    push(files, "drawing.js", DRAWING_JS)?;
    push(files, "hands.js", HANDS_JS)
}

fn push_style(files: &mut Vec<AssetFile>) -> Result<(), AllocError> {
    push(files, "page.css", PAGE_CSS)
}

/// The parts of the page's script, and its style sheet.
// No constant may have over 10,000 expressions, and one that names others has theirs.
pub(crate) fn web_files(alloc: Global) -> Result<Vec<AssetFile>, AllocError> {
    let mut files = Vec::new(alloc);
    push_script_lines(&mut files)?;
    push_script_view(&mut files)?;
    push_style(&mut files)?;
    Ok(files)
}
