//! Packets as frames of bytes: what goes over a link between two nodes.
//!
//! A [`Packet`] has the tree of what a node knows of a wave, or is a short message. [`encode`] writes the one frame
//! that spells a packet in version 2. [`decode`] reads a frame of version 1 or 2 from the front of any bytes, and a
//! [`Feeder`] reads the frames of a stream that comes in pieces of any length. Bytes that are no frame are refused with
//! a reason, at the offset of the first field that breaks its rule.
//!
//! ```text
//! let frame = encode(alloc, &packet)?;
//! let (again, len) = decode::<OwnedTree>(alloc, frame.bytes())?;    // the packet, and the frame's length
//! let mut feeder: Feeder<OwnedTree> = Feeder::new(alloc);
//! let packets = feeder.feed(alloc, frame.bytes())?;                 // one packet, with its frame's length
//! feeder.finish()?;                                                 // all frames are whole
//! ```
//!
//! A contract sees a packet with its tree as a `Tree` (`packet_map T.tree`), a [`Frame`] as the list of its bytes, and
//! a `Feeder` as what it holds of the stream (`Fed`). The format is the form `frame_form` in `specs/Frame.antt`: fields
//! one after another, each with its rule. `specs/Fields.antt` says what it is to read a form, `specs/Spelling.antt`
//! which bytes are written, `specs/Sent.antt` which rows stand for a tree, and `specs/Streams.antt` which frames a
//! stream has.
#![tactic(auto)]

mod cover;
mod decoding;
mod encoding;
mod error;
mod feeder;
mod frame;
mod header;
mod laws;
mod number;
mod packet;
mod reader;
mod row_head;
mod row_tree;
mod rows;
mod scan;
mod sets;

pub use decoding::decode;
pub use encoding::{encode, encode_up};
pub use error::{FrameError, FrameReason};
pub use feeder::Feeder;
pub use frame::Frame;
pub use laws::{captures_are_read, frame_laws, spellings, trees_are_sent};
pub use packet::Packet;
