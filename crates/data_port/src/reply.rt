//! The reply to a request.
ghost use Rattle.std.specs.Prelude.{[], ◌++◌, ◌+◌, ◌≡◌, ◌≤◌};
ghost use Rattle.{arrayvec.specs.ArrayVec.{array_vec_len}, data_port.specs.Items.{all_items_size, item_count, size_of}};
ghost use Rattle.data_port.specs.Common.{IsDurable, IsSeal, line_size};
ghost use Rattle.data_port.specs.{Reply.{item_bytes, items_bytes, longest_reply, reply_to}, Requests.{IsRequest, Rise}};

use crate::contents::put_content;
use crate::request::Request;
use seal_record::Seal;
use taxi_units::{Line, push_bytes};
use totals_record::Durable;

/// The byte in front of a request and of a reply.
pub(crate) const START: u8 = 2;

/// The byte behind a request and a reply.
pub(crate) const END: u8 = 3;

/// Puts the reply to a request into a line, which is empty: 0x02, the length in two bytes of what is between them and
/// the last byte, for each item in order its code and its content, and 0x03. Numbers have their greatest byte first.
/// Distances are in millimetres, money in the tariff's smallest units. `rows` has the table of contents. No reply is
/// longer than that with all items.
///
/// The request, the durable state and the seal are in their ranges. The form is this project's own.
pub fn put_reply(line: &mut Line, request: &Request, durable: &Durable, seal: &Seal)
    requires empty { line.old.items ≡ [] }
    requires request { IsRequest request.now }
    requires durable { IsDurable durable.now }
    requires seal { IsSeal seal.now }
    ensures reply { line.new.items ≡ reply_to durable.now seal.now request.now }
    ensures most { array_vec_len line.new ≤ longest_reply }
    ensures some { 1 ≤ array_vec_len line.new }
{
    let mut body = Line::new();
    put_items(&mut body, request.items.as_slice(), durable, seal);
    let size = body.len() as u16;
    push_bytes(line, &[START]);
    push_bytes(line, &size.to_be_bytes());
    push_bytes(line, body.as_slice());
    push_bytes(line, &[END]);
}

/// Puts the codes and contents of items into an empty line.
fn put_items(line: &mut Line, items: &[u8], durable: &Durable, seal: &Seal)
    requires empty { line.old.items ≡ [] }
    requires rise { Rise 0 items.now }
    requires durable { IsDurable durable.now }
    requires seal { IsSeal seal.now }
    ensures items { line.new.items ≡ items_bytes durable.now seal.now items.now }
    ensures most { array_vec_len line.new ≤ all_items_size }
{
    for code in items {
        put_item(line, *code, durable, seal);
    }
}

/// Appends the code and the content of an item.
fn put_item(line: &mut Line, code: u8, durable: &Durable, seal: &Seal)
    requires code { (1 ≤ code) × (code ≤ item_count) }
    requires room { array_vec_len line.old + (1 + size_of code) ≤ line_size }
    requires durable { IsDurable durable.now }
    requires seal { IsSeal seal.now }
    ensures { line.new.items ≡ line.old.items ++ item_bytes durable.now seal.now code }
{
    push_bytes(line, &[code]);
    put_content(line, code, durable, seal);
}
