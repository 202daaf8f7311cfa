//! A bridge that is called by lines.

ghost use Rattle.std.specs.Prelude.{◌≡◌, true};
ghost use Rattle.std.specs.Bool.{OnTrue};
ghost use Rattle.media_items.specs.Inputs.{input_of, is_sized};

use crate::calling::{call, redo_all, show, undo_all};
use crate::direct::Parts;
use crate::halves::Besides;
use crate::lines::{Answer, arrival_of, first_word, nack, passing_of, unread};
use crate::saying::{say_egress, say_outcome, say_up};
use bridge_core::{Core, Item, Settings};
use bytes::Bytes;
use std::alloc::{AllocError, Global};
use std::collections::VecDeque;
use std::io;
use x_refusing::Refusing;

/// A bridge, the items that wait for its lanes, and a desk besides whose calls are made in halves.
#[derive(Drop)]
pub struct Bridge<'a> {
    alloc: Global,
    heap: &'a Refusing,
    core: Core<&'a Refusing>,
    waiting: VecDeque<Item<&'a Refusing>, &'a Refusing>,
    halves: Besides<'a>,
}

/// What a line's first word asks for.
#[derive(Clone, Copy)]
enum Verb {
    Nothing,
    Desk,
    Datagram,
    Wait,
    Reports,
    Next,
    Copy,
    Direct,
    Halves,
    Show,
    AllBack,
    AllAgain,
    /// An item, if it is one.
    Item,
}

fn verb_of(word: &str) -> Verb {
    match word {
        "" | "#" => Verb::Nothing,
        "desk" => Verb::Desk,
        "rx" => Verb::Datagram,
        "wait" => Verb::Wait,
        "reports" => Verb::Reports,
        "item" => Verb::Next,
        "copy" => Verb::Copy,
        "gate" | "mix" | "plan" | "roster" | "stream" => Verb::Direct,
        "halves" | "halved" => Verb::Halves,
        "show" => Verb::Show,
        "undone" => Verb::AllBack,
        "redone" => Verb::AllAgain,
        _ => Verb::Item,
    }
}

/// Whether lanes may handle an item: sound has 1 to 200 ms of samples at 8000 or 44100 Hz.
fn is_fit<'a>(item: &Item<&'a Refusing>) -> bool
    ensures { OnTrue result (is_sized (input_of item.now) ≡ true) }
{
    match item {
        Item::Audio { rate, samples, .. } => {
            (*rate == 8_000 || *rate == 44_100)
                && (!samples.is_empty() && samples.len() <= *rate as usize / 5)
        }
        _ => true,
    }
}

fn copied<'a>(
    heap: &'a Refusing,
    item: &Item<&'a Refusing>,
) -> Result<Item<&'a Refusing>, AllocError> {
    item.copy(heap)
}

impl<'a> Bridge<'a> {
    /// A bridge without rooms, as that of a script but for the number of its lanes.
    pub fn new(alloc: Global, heap: &'a Refusing, lanes: u32) -> Option<Self> {
        let settings = Settings {
            bridge_ssrc: 1,
            cname: Bytes::copy_from_slice(heap, b"bridge").ok()?,
        };
        Some(Self {
            alloc,
            heap,
            core: Core::new(heap, lanes, settings).ok()?,
            waiting: VecDeque::new(heap),
            halves: Besides::new(heap),
        })
    }

    /// Answers a line, whose request for memory of this number is refused.
    pub fn line(&mut self, nth: u64, line: &str, out: &mut String) -> io::Result<Answer> {
        let (word, words) = first_word(line);
        match verb_of(word) {
            Verb::Nothing => Ok(Answer::Whole),
            Verb::Desk => call(self.heap, &mut self.core, nth, words, out),
            Verb::Datagram => self.datagram(nth, words, out),
            Verb::Wait => self.wait(nth, words, out),
            Verb::Reports => self.reports(nth, words, out),
            Verb::Next => self.next_item(nth, out),
            Verb::Copy => self.copy(nth),
            Verb::Direct => self.direct(nth, word, words, out),
            Verb::Halves => self.halves.line(nth, word, words, out),
            Verb::Show => show(self.heap, &self.core, nth, out),
            Verb::AllBack => undo_all(self.heap, &mut self.core, out),
            Verb::AllAgain => redo_all(self.heap, &mut self.core, out),
            Verb::Item => self.named_item(nth, word, words, out),
        }
    }

    /// A function is called beside the bridge.
    fn direct(&self, nth: u64, word: &str, words: &str, out: &mut String) -> io::Result<Answer> {
        let parts = Parts {
            alloc: self.alloc,
            heap: self.heap,
            rows: self.core.rows(),
            first: self.waiting.front(),
        };
        parts.line(nth, word, words, out)
    }

    /// The lanes handle an item that the line names.
    fn named_item(
        &mut self,
        nth: u64,
        word: &str,
        words: &str,
        out: &mut String,
    ) -> io::Result<Answer> {
        match self.item_of(word, words) {
            Some(item) => self.item(nth, &item, out),
            None => unread(out),
        }
    }

    /// The item of a line that names one.
    fn item_of(&self, word: &str, words: &str) -> Option<Item<&'a Refusing>> {
        match word {
            "tick" => Some(Item::Tick {
                moment: words.parse().ok()?,
            }),
            "report" => Some(Item::Report {
                moment: words.parse().ok()?,
            }),
            "nack" => nack(self.heap, words),
            "renew" => Some(Item::Renew),
            _ => None,
        }
    }

    /// A datagram, whose items wait.
    fn datagram(&mut self, nth: u64, words: &str, out: &mut String) -> io::Result<Answer> {
        let Some(arrival) = arrival_of(self.alloc, words) else {
            return unread(out);
        };
        self.heap.refuse(nth);
        let taken = self
            .core
            .datagram(self.heap, &arrival.from, arrival.moment, &arrival.octets);
        let met = self.heap.end(nth);
        let Ok(ingest) = taken else {
            return Ok(Answer::Refused);
        };
        say_outcome(ingest.received.outcome, out)?;
        for (to, octets) in &ingest.up {
            say_up(self.alloc, to, octets, out)?;
        }
        for item in ingest.items {
            self.waiting.push_back(item)?;
        }
        Ok(Answer::after(met))
    }

    /// Time passes for a source. The frames that this frees wait.
    fn wait(&mut self, nth: u64, words: &str, out: &mut String) -> io::Result<Answer> {
        let Some(passing) = passing_of(words) else {
            return unread(out);
        };
        self.heap.refuse(nth);
        let answered = self
            .core
            .wait(self.heap, &passing.from, passing.ssrc, passing.moment);
        let met = self.heap.end(nth);
        let Ok(answer) = answered else {
            return Ok(Answer::Refused);
        };
        for (to, octets) in &answer.up {
            say_up(self.alloc, to, octets, out)?;
        }
        for item in answer.items {
            self.waiting.push_back(item)?;
        }
        Ok(Answer::after(met))
    }

    /// The receiver reports of a moment.
    fn reports(&mut self, nth: u64, words: &str, out: &mut String) -> io::Result<Answer> {
        let Ok(moment) = words.parse::<u64>() else {
            return unread(out);
        };
        self.heap.refuse(nth);
        let told = self.core.reports(self.heap, moment);
        let met = self.heap.end(nth);
        let Ok(up) = told else {
            return Ok(Answer::Refused);
        };
        for (to, octets) in &up {
            say_up(self.alloc, to, octets, out)?;
        }
        Ok(Answer::after(met))
    }

    /// All lanes handle an item, one after another.
    fn item(
        &mut self,
        nth: u64,
        item: &Item<&'a Refusing>,
        out: &mut String,
    ) -> io::Result<Answer> {
        if !is_fit(item) {
            return unread(out);
        }
        let mut answer = Answer::Whole;
        for lane in 0..16u32 {
            if lane as usize >= self.core.lanes() {
                break;
            }
            self.heap.refuse(nth);
            let sent = self.core.item(self.heap, lane, item);
            if self.heap.end(nth) {
                answer = Answer::Anyway;
            }
            let Ok(sent) = sent else {
                return Ok(Answer::Refused);
            };
            for egress in &sent {
                say_egress(self.heap, egress, out)?;
            }
        }
        Ok(answer)
    }

    /// The lanes handle the item that waits first. It goes on waiting where they refuse it.
    fn next_item(&mut self, nth: u64, out: &mut String) -> io::Result<Answer> {
        let Some(item) = self.waiting.pop_front() else {
            return unread(out);
        };
        let answer = self.item(nth, &item, out)?;
        if answer == Answer::Refused {
            self.waiting.push_front(item)?;
        }
        Ok(answer)
    }

    /// A copy waits in place of the item that waits first.
    fn copy(&mut self, nth: u64) -> io::Result<Answer> {
        let Some(item) = self.waiting.pop_front() else {
            return Ok(Answer::Whole);
        };
        self.heap.refuse(nth);
        let copied = copied(self.heap, &item);
        let met = self.heap.end(nth);
        match copied {
            Ok(copy) => {
                self.waiting.push_front(copy)?;
                Ok(Answer::after(met))
            }
            Err(_) => {
                self.waiting.push_front(item)?;
                Ok(Answer::Refused)
            }
        }
    }
}
