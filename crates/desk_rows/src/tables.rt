//! How rows are kept: members by place, all other rows in order, and tables of both that follow each edit.
//!
//! A table lists rows once more, by what they are looked up by, so that binary search finds them. An edit of one row
//! slides the rows behind it; an edit of many rows is one sweep.

pub(crate) mod addressing;
pub(crate) mod following;
pub(crate) mod grouping;
pub(crate) mod index;
pub(crate) mod moving;
pub(crate) mod places;
pub(crate) mod searching;
pub(crate) mod sliding;
pub(crate) mod sweeping;
