//! Bytes of keys that order as the keys do; those of one key never begin those of another.
ghost use Rattle.std.specs.Prelude.{◌≡◌, ◌++◌, map, IfOk};
ghost use Rattle.newt_keys.specs.KeyForm.{IsKeyOf, OrderAsKeys};
ghost use Rattle.newt_keys.specs.KeyForm as form;
ghost use Rattle.newt_keys.specs.Seen.{said, said_all, declared_all};
ghost use Rattle.newt_spec_store.specs.declared.Order.TheVariants as order;

use crate::types::{IndexPart, IndexSpec, Key, Part};
use newt_spec_store::Order;
use std::alloc::{AllocError, Global};

/// The bytes of a key. The bytes of two keys of the declaration order as the keys do. Where the
/// keys differ, neither's bytes begin the other's.
pub fn key_bytes(alloc: Global, key: &Key, spec: &IndexSpec) -> Result<Vec<u8>, AllocError>
    requires { IsKeyOf spec.now key.now }
    ensures bytes { IfOk result (λ bytes. bytes.items ≡ form.key_bytes spec.now key.now) }
    ensures law { OrderAsKeys spec.now }
{
    let parts = key.list();
    let mut bytes = Vec::with_capacity(alloc, room_for(parts))?;
    put_parts(&mut bytes, spec.list(), parts)?;
    Ok(bytes)
}

/// The number of bytes of a key in whose texts no byte is 0. No clause speaks of room: a key with
/// such bytes takes more.
fn room_for(key: &[Part]) -> usize {
    let mut room: usize = 0;
    for part in key {
        room = room.saturating_add(part_room(part));
    }
    room
}

fn part_room(part: &Part) -> usize {
    match part {
        Part::Missing => 1,
        Part::Text(text) | Part::Symbol(text) => text.list().len().saturating_add(3),
        Part::Int(_) => 5,
        Part::Char(_) => 3,
    }
}

fn put_parts(bytes: &mut Vec<u8>, spec: &[IndexPart], key: &[Part]) -> Result<(), AllocError>
    ensures { IfOk result (λ _. bytes.new.items ≡ bytes.old.items ++ form.key_bytes
        (declared_all spec.now) (said_all key.now)) }
{
    let [part, spec @ ..] = spec else {
        return Ok(());
    };
    let [value, key @ ..] = key else {
        return Ok(());
    };
    put_part(bytes, part.order, value)?;
    put_parts(bytes, spec, key)
}

fn put_part(bytes: &mut Vec<u8>, order: Order, part: &Part) -> Result<(), AllocError>
    ensures { IfOk result (λ _. bytes.new.items ≡ bytes.old.items ++ form.part_bytes order
        (said part.now)) }
{
    if let Part::Missing = part {
        bytes.push(0)?;
        return Ok(());
    }
    bytes.push(1)?;
    match part {
        Part::Missing => Ok(()),
        Part::Text(text) | Part::Symbol(text) => put_text(bytes, order, text.list()),
        Part::Int(number) => put_turned(bytes, order, &place_of(*number).to_be_bytes()),
        Part::Char(unit) => put_turned(bytes, order, &unit.to_be_bytes()),
    }
}

/// A text ends in 0 0, and a 0 in it is 0 1.
fn put_text(bytes: &mut Vec<u8>, order: Order, text: &[u8]) -> Result<(), AllocError>
    ensures { IfOk result (λ _. bytes.new.items ≡ bytes.old.items ++ map (form.turned order)
        (form.text_bytes text.now)) }
{
    if text.contains(&0) {
        return put_marked(bytes, order, text);
    }
    put_turned(bytes, order, text)?;
    put_turned(bytes, order, &[0, 0])
}

/// The same byte by byte, where a 0 in the text is marked.
fn put_marked(bytes: &mut Vec<u8>, order: Order, text: &[u8]) -> Result<(), AllocError>
    ensures { IfOk result (λ _. bytes.new.items ≡ bytes.old.items ++ map (form.turned order)
        (form.text_bytes text.now)) }
{
    for &byte in text {
        bytes.push(turn(order, byte))?;
        if byte == 0 {
            bytes.push(turn(order, 1))?;
        }
    }
    put_turned(bytes, order, &[0, 0])
}

/// Bytes in the direction of their part.
#[tactic(auto, using(crate::proofs::Turned::ascended))]
fn put_turned(bytes: &mut Vec<u8>, order: Order, given: &[u8]) -> Result<(), AllocError>
    ensures { IfOk result (λ _. bytes.new.items ≡ bytes.old.items ++ map (form.turned order)
        given.now) }
{
    match order {
        Order::Ascend => bytes.extend_from_slice(given),
        Order::Descend => put_complements(bytes, given),
    }
}

fn put_complements(bytes: &mut Vec<u8>, given: &[u8]) -> Result<(), AllocError>
    ensures { IfOk result (λ _. bytes.new.items ≡ bytes.old.items ++ map
        (form.turned order.Descend) given.now) }
{
    for &byte in given {
        bytes.push(turn(Order::Descend, byte))?;
    }
    Ok(())
}

/// A byte, or its complement in a descending part.
fn turn(order: Order, byte: u8) -> u8
    ensures { result ≡ form.turned order byte }
{
    match order {
        Order::Ascend => byte,
        Order::Descend => 255 - byte,
    }
}

/// The place of an integer among all of 32 bits.
fn place_of(number: i32) -> u32
    ensures { result ≡ form.place_of number }
{
    (i64::from(number) + 0x8000_0000) as u32
}
