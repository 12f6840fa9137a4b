ghost use Rattle.std.specs.Prelude.{◌≡◌, ◌<◌, ◌≤◌, ◌++◌, ℕ, min, option_map, filter_map, length, slice_index, IsTrue, IsFalse, IfOk};
ghost use Rattle.kn_lines.specs.declared.orders.OrderWord.{OrderWord};
ghost use Rattle.kn_lines.specs.Numbers.{number_of};
ghost use Rattle.kn_lines.specs.Built.{has_part, only_if};
ghost use Rattle.kn_lines.specs.Orders.{order_of, alone_of, uninstall_of, run_of, turn_of, join, until_of, actor_of, code_of, is_sign};
ghost use Rattle.kn_lines.specs.Ranges.{is_until_outside};
ghost use Rattle.kn_lines.specs.Kept.{AreKeptWhole, capped, capped_actor, capped_until};

use crate::built::{Built, OrderPart};
use crate::header_lines::is_outside;
use crate::lines::Words;
use crate::numbers::read_number;
use kn_base::Code;
use std::alloc::AllocError;

/// The greatest number of turns, of rounds, or of calls of one order word.
pub const MOST_TIMES: u32 = 1_000_000;

/// Who takes turns: a thread by its number, the collector, the finalizer, or all of them in a round.
#[derive(Clone, Copy)]
pub enum Actor {
    Thread(u8),
    Collector,
    Finalizer,
    Round,
}

/// Until when an actor takes turns: for so many turns or rounds, until a thread has answered so many
/// calls, or until the phase has this code.
#[derive(Clone, Copy)]
pub enum Until {
    Turns(u32),
    Calls(u32),
    Code(Code),
}

/// A word of the order: turns of an actor, or the uninstalling of a cleaner.
#[derive(Clone, Copy)]
pub enum OrderWord {
    Run(Actor, Until),
    Uninstall(u8),
}

/// The order word that a word spells. A number above the greatest of its type is kept as that one.
#[inline]
pub fn read_order(built: &Built, word: &[u8]) -> Option<OrderWord>
    ensures { result ≡ option_map capped (order_of built.now word.now) }
{
    match read_number(word) {
        Some(number) => turn_of_thread(built, number),
        None => read_other(built, word),
    }
}

/// One turn of the thread of this number.
fn turn_of_thread(built: &Built, number: u64) -> Option<OrderWord>
    ensures { result ≡ option_map capped (turn_of (only_if (has_part built.now OrderPart.Thread) (Some (Actor.Thread number)))) }
{
    if !built.has_part(OrderPart::Thread) {
        return None;
    }
    Some(OrderWord::Run(Actor::Thread(number.min(255) as u8), Until::Turns(1)))
}

/// A word that may have a sign.
#[inline(never)]
fn read_other(built: &Built, word: &[u8]) -> Option<OrderWord>
    ensures { result ≡ option_map capped (order_of built.now word.now) }
{
    let end = find_sign(word);
    if end < word.len() {
        read_joined(built, &word[..end], word[end], &word[end + 1..])
    } else {
        read_alone(built, word)
    }
}

/// A word without a sign.
fn read_alone(built: &Built, word: &[u8]) -> Option<OrderWord>
    ensures { result ≡ option_map capped (alone_of built.now word.now) }
{
    let end = word.len();
    if 0 < end && word[0] == b'u' {
        read_uninstall(built, &word[1..])
    } else {
        read_turn(built, word)
    }
}

/// One turn, or one round, of the actor that a word spells.
fn read_turn(built: &Built, word: &[u8]) -> Option<OrderWord>
    ensures { result ≡ turn_of (option_map capped_actor (actor_of built.now word.now)) }
{
    let actor = read_actor(built, word)?;
    Some(OrderWord::Run(actor, Until::Turns(1)))
}

/// The uninstalling of the cleaner of this number.
fn read_uninstall(built: &Built, number: &[u8]) -> Option<OrderWord>
    ensures { result ≡ option_map capped (uninstall_of built.now number.now) }
{
    if !built.has_part(OrderPart::Uninstall) {
        return None;
    }
    Some(OrderWord::Uninstall(read_small(number)?))
}

/// What stands before a sign, the sign, and what stands behind it.
fn read_joined(built: &Built, before: &[u8], sign: u8, behind: &[u8]) -> Option<OrderWord>
    ensures { result ≡ join (option_map capped_actor (actor_of built.now before.now))
        (option_map capped_until (until_of built.now sign behind.now)) }
{
    let actor = read_actor(built, before)?;
    let until = read_until(built, sign, behind)?;
    make_run(actor, until)
}

/// An actor's turns until then; only a thread's calls are counted.
fn make_run(actor: Actor, until: Until) -> Option<OrderWord>
    ensures { result ≡ run_of actor until }
{
    match (actor, until) {
        (Actor::Thread(_), _) => Some(OrderWord::Run(actor, until)),
        (_, Until::Calls(_)) => None,
        _ => Some(OrderWord::Run(actor, until)),
    }
}

/// What stands behind a sign.
fn read_until(built: &Built, sign: u8, behind: &[u8]) -> Option<Until>
    ensures { result ≡ option_map capped_until (until_of built.now sign behind.now) }
{
    match sign {
        b'*' => {
            if !built.has_part(OrderPart::Turns) {
                return None;
            }
            Some(Until::Turns(read_large(behind)?))
        }
        b'/' => {
            if !built.has_part(OrderPart::Calls) {
                return None;
            }
            Some(Until::Calls(read_large(behind)?))
        }
        _ => {
            if !built.has_part(OrderPart::Code) {
                return None;
            }
            Some(Until::Code(read_code(behind)?))
        }
    }
}

/// The actor that a word spells.
fn read_actor(built: &Built, word: &[u8]) -> Option<Actor>
    ensures { result ≡ option_map capped_actor (actor_of built.now word.now) }
{
    match word {
        b"r" => if_part(built, OrderPart::Round, Actor::Round),
        b"c" => if_part(built, OrderPart::Collector, Actor::Collector),
        b"f" => if_part(built, OrderPart::Finalizer, Actor::Finalizer),
        _ => read_thread(built, word),
    }
}

/// The actor, where its part is built.
fn if_part(built: &Built, part: OrderPart, actor: Actor) -> Option<Actor>
    ensures { result ≡ only_if (has_part built.now part) (Some actor) }
{
    if built.has_part(part) {
        Some(actor)
    } else {
        None
    }
}

/// The thread whose number a word spells.
fn read_thread(built: &Built, word: &[u8]) -> Option<Actor>
    ensures { result ≡ option_map capped_actor
        (only_if (has_part built.now OrderPart.Thread) (option_map (λ n. Actor.Thread n) (number_of word.now))) }
{
    if !built.has_part(OrderPart::Thread) {
        return None;
    }
    Some(Actor::Thread(read_small(word)?))
}

/// The number that a word spells, and 255 in place of a larger one.
fn read_small(word: &[u8]) -> Option<u8>
    ensures { result ≡ option_map (λ n. min n 255) (number_of word.now) }
{
    let number = read_number(word)?;
    Some(number.min(255) as u8)
}

/// The number that a word spells, and 2^32 - 1 in place of a larger one.
fn read_large(word: &[u8]) -> Option<u32>
    ensures { result ≡ option_map (λ n. min n 4294967295) (number_of word.now) }
{
    let number = read_number(word)?;
    Some(number.min(4_294_967_295) as u32)
}

/// The code of the phase that a word spells.
fn read_code(word: &[u8]) -> Option<Code>
    ensures { result ≡ code_of word.now }
{
    if word == b"idle".as_slice() {
        Some(Code::Idle)
    } else if word == b"stopa".as_slice() {
        Some(Code::StopA)
    } else if word == b"mark".as_slice() {
        Some(Code::Mark)
    } else if word == b"weak".as_slice() {
        Some(Code::Weak)
    } else if word == b"stopb".as_slice() {
        Some(Code::StopB)
    } else if word == b"prep".as_slice() {
        Some(Code::Prep)
    } else if word == b"sweep".as_slice() {
        Some(Code::Sweep)
    } else {
        None
    }
}

/// The index of the first sign, or the number of bytes where there is none.
fn find_sign(word: &[u8]) -> usize
    ensures within { result ≤ length word.now }
    ensures before { (k : ℕ) → k < result → IsFalse (is_sign (slice_index word.now k)) }
    ensures found { result < length word.now → IsTrue (is_sign (slice_index word.now result)) }
{
    for (i, byte) in word.iter().enumerate() {
        if *byte == b'*' || *byte == b'/' || *byte == b'@' {
            return i;
        }
    }
    word.len()
}

/// Whether a number of turns or calls is out of its range.
pub fn is_until_outside(until: Until) -> bool
    ensures { result ≡ is_until_outside until }
{
    match until {
        Until::Turns(times) | Until::Calls(times) => is_outside(
            1,
            u64::from(MOST_TIMES),
            u64::from(times),
        ),
        Until::Code(_) => false,
    }
}

/// Adds the order words among words, which are all within their types.
pub fn push_orders(
    order: &mut Vec<OrderWord>,
    built: &Built,
    words: Words,
) -> Result<(), AllocError>
    requires { AreKeptWhole built.now words }
    ensures { IfOk result (λ _. order.new.items ≡ order.old.items ++ filter_map (order_of built.now) words.entry) }
{
    let mut words = words;
    while let Some(word) = words.next_word() {
        if let Some(scheduled) = read_order(built, word) {
            order.push(scheduled)?;
        }
    }
    Ok(())
}
