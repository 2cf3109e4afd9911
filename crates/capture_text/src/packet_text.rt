//! The text of a packet.

ghost use Rattle.std.specs.Prelude.{◌≡◌, ◌++◌, OnOk};
ghost use Rattle.packet_frame.specs.Sent.{packet_map};
ghost use Rattle.capture_text.specs.CaptureText.{contents_text, packet_text, wave_text};

use packet_frame::Packet;
use prefix_tree::PrefixTree;
use std::alloc::AllocError;
use tree_text::{write_numbered, write_rows};

/// Appends what a packet is, and the rows of its tree.
pub fn write_packet<T: PrefixTree>(packet: &Packet<T>, out: &mut Vec<u8>) -> Result<(), AllocError>
    ensures { OnOk result (out.new.items ≡ out.old.items ++ packet_text (packet_map T.tree packet.now)) }
{
    match packet {
        Packet::Up { stream, wave, tree } => {
            out.extend_from_slice(b" up")?;
            write_wave(*stream, *wave, out)?;
            write_contents(tree, out)?;
        }
        Packet::Done { stream, wave } => {
            out.extend_from_slice(b" done")?;
            write_wave(*stream, *wave, out)?;
            out.push(b'\n')?;
        }
        Packet::Attach => out.extend_from_slice(b" attach\n")?,
        Packet::Down => out.extend_from_slice(b" down\n")?,
    }
    Ok(())
}

// Appends a stream and a wave.
fn write_wave(stream: u8, wave: u8, out: &mut Vec<u8>) -> Result<(), AllocError>
    ensures { OnOk result (out.new.items ≡ out.old.items ++ wave_text stream wave) }
{
    write_numbered(b" stream ", usize::from(stream), out)?;
    write_numbered(b" wave ", usize::from(wave), out)
}

// Appends which ranks a tree covers, and how many rows it has, and these rows.
fn write_contents<T: PrefixTree>(tree: &T, out: &mut Vec<u8>) -> Result<(), AllocError>
    ensures { OnOk result (out.new.items ≡ out.old.items ++ contents_text (T.tree tree.now)) }
{
    out.extend_from_slice(b" covered ")?;
    tree.row(0).label.write_text(out)?;
    write_numbered(b" rows ", tree.rows() - 1, out)?;
    out.push(b'\n')?;
    write_rows(tree, out)
}
