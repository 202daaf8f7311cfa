//! The bridge's program. `confbridge replay` answers a script from standard input, `confbridge serve FILE` runs a
//! bridge on sockets.
#![tactic(auto)]

mod ending;
mod telling;

use crate::ending::{ServeFault, serve_status};
use crate::telling::{tell_cause, tell_causes, tell_counts, tell_fault, tell_file, write_lines};
use bridge_monitor::{EventLines, Teller};
use bridge_server::{Front, Stopped};
use event_lines::{Cause, ServerPart, WhyFailed};
use front_settings::{FrontSettings, SettingsFault, settings};
use script_text::{Ask, Exit, Reader, Writer, asked, exit_status, run, unread};
use std::alloc::AllocGlobal;
use std::fs::Files;
use std::net::Net;
use std::process::ExitCode;
use std::rt::Runtime;
use std::sync::Wait;
use std::thread::Threads;
use std::time::Clock;
use std::{env, fs, io, thread};
use udp_wire::FrontFault;

/// What the arguments ask for.
#[derive(Drop)]
enum Task {
    /// What needs no more than standard input.
    Script(Ask),
    /// A bridge on sockets, with the settings of this file.
    Serve(String),
    /// How the program is called.
    Help,
    /// Which program this is.
    Version,
}

/// What the arguments ask for.
fn arguments(rt: &HostRuntime) -> Task {
    let mut words = match env::args(rt) {
        Err(e) => return Task::Script(unread(e.kind())),
        Ok(words) => words,
    };
    let _program = words.next();
    let first = words.next();
    let second = words.next();
    let third = words.next();
    if first.as_deref() == Some("serve") && third.is_none() {
        return match second {
            Some(file) => Task::Serve(file),
            None => Task::Script(Ask::Unknown),
        };
    }
    match (first.as_deref(), second.as_deref()) {
        (Some("--help"), None) => Task::Help,
        (Some("--version"), None) => Task::Version,
        (first, second) => Task::Script(asked(first, second)),
    }
}

/// What `confbridge --help` says.
const HELP: &str = "\
usage: confbridge replay | confbridge serve FILE

replay      answers the lines of a script from standard input
serve FILE  runs a bridge on sockets, with the settings of FILE, until an operator says `stop`
--help      says this
--version   says which program this is";

/// What `confbridge --version` says.
const VERSION: &str = "confbridge 1";

/// Says something on standard output. The exit status is 0, or 3 if that failed.
fn say(rt: &HostRuntime, text: &str) -> ExitCode {
    match println!(rt; "{text}") {
        Ok(()) => ExitCode::from(0),
        Err(_) => {
            let _ = eprintln!(rt; "confbridge: {}", FrontFault::Io);
            ExitCode::from(3)
        }
    }
}

/// Does what needs no more than standard input.
fn outcome(rt: &HostRuntime, ask: Ask) -> Exit {
    match ask {
        Ask::Replay => {
            let mut reader = Reader(rt.reader());
            let mut writer = Writer(io::writer(rt));
            Exit::Ran(run(rt.alloc(), &mut reader, &mut writer))
        }
        Ask::Unknown => Exit::Usage,
        Ask::OutOfMemory => Exit::OutOfMemory,
    }
}

/// Tells how a script ended: on standard error unless it ended well, and by the exit status.
fn tell(rt: &HostRuntime, outcome: &Exit) -> ExitCode {
    let status = exit_status(outcome);
    if status != 0 {
        let _ = eprintln!(rt; "{outcome}");
    }
    ExitCode::from(status)
}

/// The settings that a file gives. What is wrong is told.
fn settings_in<R: Runtime + Files + AllocGlobal>(
    rt: &R,
    path: &str,
) -> Result<FrontSettings, ServeFault> {
    let octets = match fs::read(rt, path) {
        Ok(octets) => octets,
        Err(error) => {
            tell_file(rt, path, &WhyFailed::of(&error));
            return Err(ServeFault::from(error));
        }
    };
    let Ok(text) = str::from_utf8(&octets) else {
        tell_file(rt, path, &"no UTF-8");
        return Err(ServeFault::Settings(SettingsFault::BadToml));
    };
    match settings(rt.alloc(), text) {
        Ok(settings) => Ok(settings),
        Err(fault) => {
            tell_fault(rt, path, text, &fault);
            Err(ServeFault::from(fault))
        }
    }
}

/// A bridge that has its sockets. What fails is told.
fn bound<R>(rt: &R, path: &str) -> Result<Front, ServeFault>
where
    R: Runtime + Files + AllocGlobal + Net + Clock,
{
    match Front::bind(rt, settings_in(rt, path)?) {
        Ok(front) => Ok(front),
        Err(fault) => {
            tell_cause(rt, &fault.cause);
            Err(ServeFault::Front(fault.ends))
        }
    }
}

/// Says why a bridge doesn't start, and returns its fault.
fn unstarted<R: Runtime>(rt: &R, why: WhyFailed, ends: FrontFault) -> ServeFault {
    let part = ServerPart::Start;
    tell_cause(rt, &Cause::Failed { part, why });
    ServeFault::Front(ends)
}

/// What takes what a bridge has to tell, and the lines of that. What fails is told.
fn tellers<R: Runtime + AllocGlobal + Clock>(rt: &R) -> Result<(Teller, EventLines), ServeFault> {
    let Ok(teller) = Teller::new(rt.alloc()) else {
        return Err(unstarted(rt, WhyFailed::OutOfMemory, FrontFault::OutOfMemory));
    };
    match EventLines::begin(rt, rt.alloc(), &teller) {
        Ok(lines) => Ok((teller, lines)),
        Err(error) => Err(unstarted(rt, WhyFailed::of(&error), FrontFault::of_clock(&error))),
    }
}

/// Runs a bridge until it ends, while a thread of its own says what happens. That thread has ended when this returns.
fn run_told<R>(rt: &R, front: Front) -> Result<Stopped, ServeFault>
where
    R: Runtime + AllocGlobal + Net + Clock + Threads + Wait + Copy + Send + Sync + Drop + 'static,
{
    let (teller, lines) = tellers(rt)?;
    let mut lines = lines;
    let own = *rt;
    let Ok(writer) = thread::spawn(rt, move || write_lines(&own, &mut lines)) else {
        return Err(unstarted(rt, WhyFailed::NoThread, FrontFault::NoThread));
    };
    let done = front.run(rt, &teller);
    teller.end(rt);
    writer.join(rt);
    tell_causes(rt, &teller);
    Ok(done?)
}

/// Runs a bridge with the settings of a file until it is stopped. Tells on standard error where it listens.
fn serve<R>(rt: &R, path: &str) -> Result<Stopped, ServeFault>
where
    R: Runtime
        + AllocGlobal
        + Files
        + Net
        + Clock
        + Threads
        + Wait
        + Copy
        + Send
        + Sync
        + Drop
        + 'static,
{
    let front = bound(rt, path)?;
    let listening = front.listening()?;
    let start = front.start();
    let _ = eprintln!(rt; "confbridge: listening on {listening}, ticks from {start}");
    run_told(rt, front)
}

/// Runs a bridge, and tells how it ended: on standard error and by the exit status.
fn served<R>(rt: &R, path: &str) -> ExitCode
where
    R: Runtime
        + AllocGlobal
        + Files
        + Net
        + Clock
        + Threads
        + Wait
        + Copy
        + Send
        + Sync
        + Drop
        + 'static,
{
    let answer = serve(rt, path);
    let _ = match &answer {
        Ok(stopped) => {
            tell_counts(rt, stopped);
            eprintln!(rt; "confbridge: stopped")
        }
        Err(fault) => eprintln!(rt; "confbridge: {fault}"),
    };
    ExitCode::from(serve_status(&answer))
}

fn main(rt: HostRuntime) -> ExitCode {
    match arguments(&rt) {
        Task::Serve(path) => served(&rt, path.as_str()),
        Task::Help => say(&rt, HELP),
        Task::Version => say(&rt, VERSION),
        Task::Script(ask) => {
            let outcome = outcome(&rt, ask);
            tell(&rt, &outcome)
        }
    }
}
