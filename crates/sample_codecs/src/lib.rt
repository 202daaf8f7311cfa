//! The codecs of audio samples: PCMU, which is mu-law (ITU-T G.711, RFC 3551 section 4.5.14), and L16 (RFC 3551 section
//! 4.5.11). A sample has 16 bits.
//!
//! [`encode_pcmu`], [`decode_pcmu`], [`encode_l16`] and [`decode_l16`] take a whole packet, [`encode_sample`] and
//! [`decode_sample`] one sample of mu-law. A contract states the table of the standard and the interval that each code
//! stands for; L16 is octets in network order, and decoding and encoding undo each other.
//!
//! ```rust
//! let silence = encode_sample(0); // 255
//! let code = encode_sample(1000); // 206
//! let sample = decode_sample(code); // 988, the middle of its interval
//!
//! let mut samples = [0; 2];
//! decode_l16(&[0x00, 0x05, 0xff, 0xff], &mut samples); // 5 and -1
//! let mut octets = [0; 4];
//! encode_l16(&samples, &mut octets); // the same octets
//! ```
//!
//! `silence_is_all_ones`, `a_thousand_is_in_the_fourth_segment`, `a_code_gives_the_middle_of_its_interval` and
//! `octets_come_back` of worked_media are these calls, with their answers proved.
#![tactic(auto)]

mod l16;
mod lanes;
mod samples;
mod slices;
mod table;

pub use self::l16::{decode_l16, encode_l16};
pub use self::samples::{decode_sample, encode_again, encode_sample};
pub use self::slices::{decode_pcmu, encode_pcmu};
