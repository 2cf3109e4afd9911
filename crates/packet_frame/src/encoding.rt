//! Bytes of packets.

ghost use Rattle.std.specs.Prelude.{ℕ, ◌≡◌, ◌≢◌, ◌+◌, ◌++◌, ◌<◌, ◌≤◌, true, length, drop, List, Ok, OnOk, IfOk};
ghost use Rattle.std.specs.List.{flat_map};
ghost use Rattle.std.specs.Int.{w16, w64, to_be_bytes};
ghost use Rattle.rank_set.specs.Ranks.{none, Has, is_subset};
ghost use Rattle.rank_places.specs.Places.{to_places};
ghost use Rattle.prefix_tree.specs.Chains.{IsGoodChain};
ghost use Rattle.packet_frame.specs.Fields.{read};
ghost use Rattle.packet_frame.specs.Frame.{frame_form};
ghost use Rattle.packet_frame.specs.Sent.{sent_from, packet_map, as_packet};
ghost use Rattle.packet_frame.specs.Spelling.{set_bytes, coverage_bytes, sent_bytes, spelling};
ghost use Rattle.packet_frame.specs.Writing.{name_bytes, no_ends, below_bytes, chain_bytes, rows_bytes, AreText};
ghost use Rattle.packet_frame.specs.Sending.{HasText, MayBeTree, MayBeEncoded, spelling_of};
ghost use Rattle.packet_frame.specs.declared.packet.Packet.TheVariants.{Up};

use crate::frame::Frame;
use crate::packet::{ATTACH, DONE, DOWN, Packet, UP};
use call_path::{FRAME_BYTES, FRAME_LIMIT};
use prefix_tree::{Chain, PrefixTree};
use rank_places::CoverPlaces;
use rank_set::{RANK_LIMIT, RankSet, WORD_LIMIT};
use std::alloc::{AllocError, Global};

/// The version that is written.
const VERSION: u8 = 2;

// For how many bytes room is made before a tree is written: for each of its rows, and besides.
const BYTES_A_ROW: usize = 40;

const BYTES_BESIDES: usize = 64;

/// The bytes of a packet's frame, in version 2; its fields are in docs/FORMATS.md. `decode` reads the packet from them
/// again, whatever bytes follow. The stream must be below 8, the wave below 16, and the coverage of a tree not empty.
/// Fails only if memory runs out.
pub fn encode<T: PrefixTree>(alloc: Global, packet: &Packet<T>) -> Result<Frame, AllocError>
    requires { MayBeEncoded (packet_map T.tree packet.now) }
    ensures spelling { IfOk result
        (λ frame. frame ≡ spelling 2 (packet_map sent_from (packet_map T.tree packet.now))) }
    ensures read_back { IfOk result
        (λ frame. (more : List ℕ)
        → as_packet (read frame_form (frame ++ more) 0) ≡ Ok (packet_map T.tree packet.now, length frame)) }
{
    let bytes = match packet {
        Packet::Up { stream, wave, tree } => return encode_up(alloc, *stream, *wave, tree),
        Packet::Done { stream, wave } => {
            Vec::from_slice(alloc, &[VERSION, DONE, *stream, *wave])?
        }
        Packet::Attach => Vec::from_slice(alloc, &[VERSION, ATTACH])?,
        Packet::Down => Vec::from_slice(alloc, &[VERSION, DOWN])?,
    };
    Ok(Frame { bytes })
}

/// The frame that `encode` gives for an `Up` packet with this tree, without making the packet. Fails only if memory
/// runs out.
pub fn encode_up<T: PrefixTree>(
    alloc: Global,
    stream: u8,
    wave: u8,
    tree: &T,
) -> Result<Frame, AllocError>
    requires { MayBeEncoded (Up stream wave (T.tree tree.now)) }
    ensures spelling { IfOk result (λ frame. frame ≡ spelling_of 2 (Up stream wave (T.tree tree.now))) }
    ensures read_back { IfOk result
        (λ frame. (more : List ℕ)
        → as_packet (read frame_form (frame ++ more) 0) ≡ Ok (Up stream wave (T.tree tree.now), length frame)) }
{
    let mut out = Vec::new(alloc);
    out.reserve(BYTES_BESIDES + BYTES_A_ROW * tree.rows())?;
    out.extend_from_slice(&[VERSION, UP, stream, wave])?;
    put_tree(tree, &mut out)?;
    Ok(Frame { bytes: out })
}

// Appends a tree: its coverage, how many rows it has besides the root, and these.
fn put_tree<T: PrefixTree>(tree: &T, out: &mut Vec<u8>) -> Result<(), AllocError>
    requires { (T.tree tree.now).coverage ≢ none }
    ensures bytes { OnOk result (out.new.items ≡ out.old.items ++ sent_bytes 2 (sent_from (T.tree tree.now))) }
    ensures may { OnOk result (MayBeTree 2 (T.tree tree.now)) }
{
    let cover = tree.row(0).label;
    put_cover(cover, out)?;
    out.extend_from_slice(&((tree.rows() - 1) as u16).to_be_bytes())?;
    let places = CoverPlaces::of(*out.allocator(), cover)?;
    put_rows(tree, &places, out)
}

// Appends the rows of a tree besides the root.
fn put_rows<T: PrefixTree>(
    tree: &T,
    places: &CoverPlaces,
    out: &mut Vec<u8>,
) -> Result<(), AllocError>
    requires { places.now ≡ (T.tree tree.now).coverage }
    ensures bytes { OnOk result (out.new.items ≡ out.old.items ++ rows_bytes (T.tree tree.now)) }
    ensures text { OnOk result (HasText (T.tree tree.now)) }
{
    let mut at = tree.cursor(*out.allocator())?;
    while let Some(chain) = tree.next_chain(&mut at) {
        put_chain(&chain, places, out)?;
    }
    Ok(())
}

// Appends the rows of a chain: of each its depth, the length of its last frame, that frame, and the places of its ends
// in the coverage.
fn put_chain(chain: &Chain<'_>, places: &CoverPlaces, out: &mut Vec<u8>) -> Result<(), AllocError>
    requires good { IsGoodChain chain.now }
    requires covered { is_subset chain.now.ends.now places.now ≡ true }
    ensures bytes { OnOk result (out.new.items ≡ out.old.items ++ chain_bytes places.now chain.now) }
    ensures text { OnOk result (AreText (drop chain.now.skip chain.now.frames.now)) }
{
    put_name(chain.depth, chain.frames.frame(chain.skip), out)?;
    put_below(chain, out)?;
    put_ends(chain.ends, places, out)
}

// Appends what is between the first frame of a chain and the ends of its last row.
fn put_below(chain: &Chain<'_>, out: &mut Vec<u8>) -> Result<(), AllocError>
    requires { IsGoodChain chain.now }
    ensures bytes { OnOk result (out.new.items ≡ out.old.items
        ++ below_bytes (chain.now.depth + 1) (drop (chain.now.skip + 1) chain.now.frames.now)) }
    ensures text { OnOk result (AreText (drop (chain.now.skip + 1) chain.now.frames.now)) }
{
    let len = chain.frames.len();
    for i in chain.skip + 1..len {
        put_name_below(chain.depth + (i - chain.skip), chain.frames.frame(i), out)?;
    }
    Ok(())
}

// Appends the places of a row's ends in the coverage. In a deep tree most rows have none, and take no more than this.
fn put_ends(ends: &RankSet, places: &CoverPlaces, out: &mut Vec<u8>) -> Result<(), AllocError>
    requires { is_subset ends.now places.now ≡ true }
    ensures { OnOk result (out.new.items ≡ out.old.items ++ set_bytes (to_places places.now ends.now)) }
{
    if ends.is_empty() {
        return out.extend_from_slice(&[0; 4]);
    }
    put_set(&places.to_places(ends)?, out)
}

// Appends a row's depth, and its last frame: the frame's length, and its bytes.
fn put_name(depth: usize, name: &str, out: &mut Vec<u8>) -> Result<(), AllocError>
    requires depth { depth ≤ FRAME_LIMIT }
    requires name { length name.now ≤ FRAME_BYTES }
    ensures { OnOk result (out.new.items ≡ out.old.items ++ name_bytes depth name.now) }
{
    let [high, low] = (name.len() as u16).to_be_bytes();
    out.extend_from_slice(&[depth as u8, high, low])?;
    out.extend_from_slice(name.as_bytes())
}

// Appends the same behind the ends of the row above, which has none.
fn put_name_below(depth: usize, name: &str, out: &mut Vec<u8>) -> Result<(), AllocError>
    requires depth { depth ≤ FRAME_LIMIT }
    requires name { length name.now ≤ FRAME_BYTES }
    ensures { OnOk result (out.new.items ≡ out.old.items ++ (no_ends ++ name_bytes depth name.now)) }
{
    let [high, low] = (name.len() as u16).to_be_bytes();
    out.extend_from_slice(&[0, 0, 0, 0, depth as u8, high, low])?;
    out.extend_from_slice(name.as_bytes())
}

// Appends a set of numbers: the index of its first word, how many words it has, and these.
fn put_set(numbers: &RankSet, out: &mut Vec<u8>) -> Result<(), AllocError>
    ensures { OnOk result (out.new.items ≡ out.old.items ++ set_bytes numbers.now) }
{
    if let Some(words) = numbers.held_words() {
        return put_words(numbers.word_offset(), words, out);
    }
    let words = numbers.words(*out.allocator())?;
    put_words(numbers.word_offset(), &words, out)
}

// Appends the index of the first of some words, how many there are, and these.
fn put_words(offset: u32, words: &[u64], out: &mut Vec<u8>) -> Result<(), AllocError>
    requires { offset + length words.now ≤ WORD_LIMIT }
    ensures { OnOk result (out.new.items ≡ out.old.items
        ++ (to_be_bytes w16 offset ++ (to_be_bytes w16 (length words.now) ++ flat_map (to_be_bytes w64) words.now))) }
{
    out.extend_from_slice(&(offset as u16).to_be_bytes())?;
    out.extend_from_slice(&(words.len() as u16).to_be_bytes())?;
    for word in words {
        out.extend_from_slice(&word.to_be_bytes())?;
    }
    Ok(())
}

// Appends a coverage: how many runs it has, and these.
fn put_cover(cover: &RankSet, out: &mut Vec<u8>) -> Result<(), AllocError>
    ensures bytes { OnOk result (out.new.items ≡ out.old.items ++ coverage_bytes 2 cover.now) }
    ensures small { OnOk result ((r : ℕ) → Has r cover.now → r < RANK_LIMIT) }
{
    // for the proof: its ranks are below the limit
    cover.invariant();
    let runs = cover.runs(*out.allocator())?;
    out.extend_from_slice(&(runs.len() as u32).to_be_bytes())?;
    for run in &runs {
        out.extend_from_slice(&run.first.to_be_bytes())?;
        out.extend_from_slice(&run.last.to_be_bytes())?;
    }
    Ok(())
}
