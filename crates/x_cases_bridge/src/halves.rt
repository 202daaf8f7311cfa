//! A desk whose calls are made in two halves, as a desk that operators share makes them.

use crate::lines::{Answer, unread};
use crate::saying::{say, say_reply};
use desk_calls::{Desk, Reply};
use desk_edit::{Call, Refusal};
use desk_rows::Rows;
use desk_text::{parse_desk, print_rows};
use reversible_rows::ReversibleRows;
use std::alloc::AllocError;
use std::io;
use undo_log::{Listed, Reversible};
use x_refusing::Refusing;

/// A desk, and other rows that follow it by the edits that are published.
#[derive(Drop)]
struct Halves<'a> {
    heap: &'a Refusing,
    desk: Desk<&'a Refusing>,
    follower: Listed<ReversibleRows<&'a Refusing>>,
}

impl<'a> Halves<'a> {
    /// A desk without rows.
    fn new(heap: &'a Refusing) -> Result<Self, AllocError> {
        Ok(Self {
            heap,
            desk: Desk::new(heap, Rows::new(heap, 1)?),
            follower: Listed::new(ReversibleRows::new(Rows::new(heap, 1)?)),
        })
    }

    /// Publishes the edits of a call between its two halves, and carries it out.
    fn call(&mut self, call: &Call<&'a Refusing>) -> Result<u64, Refusal> {
        let prepared = self.desk.prepare(self.heap, call)?;
        let Ok(edits) = self.desk.edit_of(self.heap, call, &prepared) else {
            return Err(Refusal::OutOfMemory);
        };
        self.follower.absorb(&edits);
        Ok(self.desk.commit(call, prepared))
    }

    /// A call of which a request for memory is refused.
    fn answer_call(
        &mut self,
        nth: u64,
        call: &Call<&'a Refusing>,
        out: &mut String,
    ) -> io::Result<Answer> {
        self.heap.refuse(nth);
        let answer = self.call(call);
        let met = self.heap.end(nth);
        let reply = match answer {
            Ok(no) => Reply::Accepted { no },
            Err(Refusal::OutOfMemory) => return Ok(Answer::Refused),
            Err(why) => Reply::Refused {
                at: self.desk.version(),
                why,
            },
        };
        say_reply(self.heap, &reply, out)?;
        Ok(Answer::after(met))
    }

    /// Appends the rows of the desk, and those of the other.
    fn print(&self, text: &mut Vec<u8, &'a Refusing>) -> Result<(), AllocError> {
        print_rows(self.desk.rows(), self.desk.version(), text)?;
        print_rows(self.follower.inner().rows(), self.desk.version(), text)
    }
}

/// Such a desk, from the first line that asks for it.
#[derive(Drop)]
pub struct Besides<'a> {
    heap: &'a Refusing,
    made: Option<Halves<'a>>,
}

impl<'a> Besides<'a> {
    pub fn new(heap: &'a Refusing) -> Self {
        Self { heap, made: None }
    }

    /// Answers a line: a call, or both rows.
    pub fn line(
        &mut self,
        nth: u64,
        word: &str,
        words: &str,
        out: &mut String,
    ) -> io::Result<Answer> {
        if self.made.is_none() {
            self.made = Some(Halves::new(self.heap)?);
        }
        let Some(halves) = &mut self.made else {
            return unread(out);
        };
        match (word, parse_desk(self.heap, words.as_bytes())) {
            ("halves", Ok(call)) => halves.answer_call(nth, &call, out),
            ("halved", _) => {
                let mut text = Vec::new(self.heap);
                halves.print(&mut text)?;
                say(&text, out)?;
                Ok(Answer::Whole)
            }
            _ => unread(out),
        }
    }
}
