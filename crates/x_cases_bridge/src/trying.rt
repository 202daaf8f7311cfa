//! Whether a bridge answers a case, and is as before after each refusal.

use crate::bridge::Bridge;
use crate::case::Case;
use crate::lines::{Answer, MOST};
use std::alloc::{AllocError, Global};
use std::io;
use x_refusing::Refusing;

/// What a bridge has answered.
#[derive(Drop)]
struct Told {
    /// How it has answered the line whose request was refused.
    answer: Answer,
    text: String,
}

/// A bridge answers lines.
fn answers<'a>(bridge: &mut Bridge<'a>, lines: &str, text: &mut String) -> io::Result<()> {
    for line in lines.lines() {
        bridge.line(0, line, text)?;
    }
    Ok(())
}

/// What a bridge is told: the first lines of a case, then a line whose request for memory of this number is refused,
/// and then others.
#[derive(Clone, Copy)]
struct Trial<'t> {
    case: &'t Case,
    line: &'t str,
    nth: u64,
    others: &'t str,
}

/// What a bridge answers in a trial.
fn tell<'a>(alloc: Global, bridge: &mut Bridge<'a>, trial: &Trial<'_>) -> io::Result<Told> {
    let mut text = String::new(alloc);
    answers(bridge, trial.case.before.as_str(), &mut text)?;
    let answer = bridge.line(trial.nth, trial.line, &mut text)?;
    answers(bridge, trial.others, &mut text)?;
    Ok(Told { answer, text })
}

/// What a new bridge over this memory answers.
fn said_over<'a>(alloc: Global, heap: &'a Refusing, trial: &Trial<'_>) -> io::Result<Told> {
    match Bridge::new(alloc, heap, trial.case.lanes) {
        Some(mut bridge) => tell(alloc, &mut bridge, trial),
        None => Err(io::Error::from(AllocError)),
    }
}

/// What a new bridge answers.
fn said(alloc: Global, trial: &Trial<'_>) -> io::Result<Told> {
    let heap = Refusing::new(alloc);
    said_over(alloc, &heap, trial)
}

/// Whether the desk's rows are those that were shown before.
fn shows<'a>(alloc: Global, bridge: &mut Bridge<'a>, before: &String) -> io::Result<bool> {
    let mut shown = String::new(alloc);
    bridge.line(0, "show", &mut shown)?;
    Ok(shown == *before)
}

/// A bridge refuses the line at each of its requests in turn, until it answers. Where other rows are shown after a
/// refusal, the answer has that.
fn told_at_last<'a>(alloc: Global, bridge: &mut Bridge<'a>, case: &Case) -> io::Result<String> {
    let mut text = String::new(alloc);
    answers(bridge, case.before.as_str(), &mut text)?;
    let mut before = String::new(alloc);
    bridge.line(0, "show", &mut before)?;
    for nth in 1..MOST {
        if bridge.line(nth, case.refused.as_str(), &mut text)? != Answer::Refused {
            break;
        }
        if !shows(alloc, bridge, &before)? {
            text.push_str("other rows\n")?;
        }
    }
    answers(bridge, case.after.as_str(), &mut text)?;
    Ok(text)
}

/// The same over this memory.
fn said_at_last_over<'a>(alloc: Global, heap: &'a Refusing, case: &Case) -> io::Result<String> {
    match Bridge::new(alloc, heap, case.lanes) {
        Some(mut bridge) => told_at_last(alloc, &mut bridge, case),
        None => Err(io::Error::from(AllocError)),
    }
}

/// What one new bridge answers at last.
fn said_at_last(alloc: Global, case: &Case) -> io::Result<String> {
    let heap = Refusing::new(alloc);
    said_at_last_over(alloc, &heap, case)
}

/// Prints the first line that is another one than is wanted.
fn print_difference(
    rt: &HostRuntime,
    case: &Case,
    when: &str,
    want: &str,
    got: &str,
) -> io::Result<()> {
    let name = case.name.as_str();
    let mut got = got.lines();
    for want in want.lines() {
        let line = got.next().unwrap_or("(the end)");
        if line != want {
            return println!(rt; "{name}, {when}: {want} is wanted, and not {line}");
        }
    }
    let line = got.next().unwrap_or("(the end)");
    println!(rt; "{name}, {when}: the end is wanted, and not {line}")
}

/// Whether a bridge tells what is wanted after the refusal of a trial. Prints what it doesn't.
fn is_told(
    rt: &HostRuntime,
    alloc: Global,
    trial: &Trial<'_>,
    want: &str,
    got: &str,
) -> io::Result<bool> {
    if got == want {
        return Ok(true);
    }
    let nth = trial.nth;
    let when = format!(in alloc; "asked after refusal {nth}")?;
    print_difference(rt, trial.case, when.as_str(), want, got)?;
    Ok(false)
}

/// How many requests the line makes, if the bridge is as before after each refusal, or as after an answer where it
/// answers anyway. Prints what isn't.
fn requests(rt: &HostRuntime, alloc: Global, case: &Case) -> io::Result<Option<u64>> {
    let whole = Trial {
        case,
        line: case.refused.as_str(),
        nth: 0,
        others: case.asked.as_str(),
    };
    let before = said(alloc, &Trial { line: "", ..whole })?;
    let after = said(alloc, &whole)?;
    for nth in 1..MOST {
        let trial = Trial { nth, ..whole };
        let told = said(alloc, &trial)?;
        let got = told.text.as_str();
        let is_so = match told.answer {
            Answer::Whole => return Ok(Some(nth - 1)),
            Answer::Anyway => is_told(rt, alloc, &trial, after.text.as_str(), got)?,
            Answer::Refused => is_told(rt, alloc, &trial, before.text.as_str(), got)?,
        };
        if !is_so {
            return Ok(None);
        }
    }
    Ok(None)
}

/// Whether the case is answered as it has to be. Prints what isn't.
pub fn is_tried(rt: &HostRuntime, alloc: Global, case: &Case) -> io::Result<bool> {
    let wanted = case.wanted.as_str();
    let trial = Trial {
        case,
        line: case.refused.as_str(),
        nth: 0,
        others: case.after.as_str(),
    };
    let whole = said(alloc, &trial)?;
    if whole.text.as_str() != wanted {
        print_difference(rt, case, "with ample memory", wanted, whole.text.as_str())?;
        return Ok(false);
    }
    if case.refused.is_empty() {
        return Ok(true);
    }
    let Some(requests) = requests(rt, alloc, case)? else {
        return Ok(false);
    };
    let text = said_at_last(alloc, case)?;
    let name = case.name.as_str();
    eprintln!(rt; "{name}: {requests} requests")?;
    if text.as_str() != wanted || (requests == 0) != case.takes_none {
        print_difference(rt, case, "after all refusals", wanted, text.as_str())?;
        return Ok(false);
    }
    Ok(true)
}
