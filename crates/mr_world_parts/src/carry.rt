// What a call on a node gives out goes to the file, to the links and to the book: all of it, or nothing.
ghost use Rattle.std.specs.Prelude.{◌≡◌, ◌≢◌, ◌≤◌, ◌<◌, ◌++◌, [], Some, length, map, take, drop, slice_get, IfOk, OnOk, OnErr};
ghost use Rattle.std.specs.Option.{option_map};
ghost use Rattle.mr_node_spec.specs.State.{end_of};
ghost use Rattle.law_refinement.specs.State.{Link as LinkState};
ghost use Rattle.law_refinement.specs.Carrying.{booked_as, filed, reached, said_on, settled};
ghost use Rattle.mr_world_parts.specs.Answering.{IsBehind, answered_links};
ghost use Rattle.mr_world_parts.specs.Memory.{TakesMemory};
ghost use Rattle.mr_world_parts.specs.Undoing.{fed_by, unfed_by, shut_by, unsaid_on};

use crate::entry::{BookEntry, branch, lengthen};
use crate::giving::Giving;
use crate::link::Link;
use crate::slot::Slot;
use mr_node_output::Outs;
use mr_repl::ReplId;
use std::alloc::{AllocError, Global};

/// Feeds the links that are to be fed, and says how many it came to before memory ran out.
fn feed_front(links: &mut [Link], n: usize, outs: &Outs) -> usize
    ensures within { result ≤ length links.old }
    ensures fed { links.new ≡
        map (fed_by n outs.now) (take result links.old) ++ drop result links.old }
    ensures some { result < length links.new → outs.now.grown ≢ [] }
{
    let mut count = 0;
    for k in links.iter_mut() {
        if k.feed_if(n, outs).is_err() {
            return count;
        }
        count += 1;
    }
    count
}

/// Takes back what the first links were fed.
fn unfeed_front(links: &mut [Link], count: usize, n: usize, outs: &Outs)
    requires { count ≤ length links.old }
    ensures { links.new ≡
        map (unfed_by n outs.now) (take count links.old) ++ drop count links.old }
{
    let mut left = count;
    for k in links.iter_mut() {
        if left == 0 {
            return;
        }
        k.unfeed_if(n, outs);
        left -= 1;
    }
}

/// Feeds the links that are to be fed: all of them, or none.
fn feed_all(links: &mut [Link], n: usize, outs: &Outs) -> Result<(), AllocError>
    ensures ok { OnOk result (links.new ≡ map (fed_by n outs.now) links.old) }
    ensures err { OnErr result (links.new ≡ links.old) }
    ensures some { OnErr result (outs.now.grown ≢ []) }
{
    let count = feed_front(links, n, outs);
    if count < links.len() {
        unfeed_front(links, count, n, outs);
        return Err(AllocError);
    }
    Ok(())
}

/// Closes the ends that the node closed.
fn shut_all(links: &mut [Link], n: usize, outs: &Outs)
    ensures { links.new ≡ map (shut_by n outs.now) links.old }
{
    for k in links.iter_mut() {
        k.shut_if(n, outs);
    }
}

/// The same as `feed_all`, of a vector.
fn feed_in(links: &mut Vec<Link>, n: usize, outs: &Outs) -> Result<(), AllocError>
    ensures ok { OnOk result (links.new.items ≡ map (fed_by n outs.now) links.old.items) }
    ensures err { OnErr result (links.new.items ≡ links.old.items) }
    ensures some { OnErr result (outs.now.grown ≢ []) }
{
    feed_all(links.as_mut_slice(), n, outs)
}

/// Takes back what all links were fed.
fn unfeed_in(links: &mut Vec<Link>, n: usize, outs: &Outs)
    ensures { links.new.items ≡ map (unfed_by n outs.now) links.old.items }
{
    let count = links.len();
    unfeed_front(links.as_mut_slice(), count, n, outs);
}

/// The same as `shut_all`, of a vector.
fn shut_in(links: &mut Vec<Link>, n: usize, outs: &Outs)
    ensures { links.new.items ≡ map (shut_by n outs.now) links.old.items }
{
    shut_all(links.as_mut_slice(), n, outs);
}

/// What a call did to the book.
fn write_book(
    alloc: Global,
    book: &mut Vec<BookEntry>,
    id: ReplId,
    offset: u64,
    outs: &Outs,
) -> Result<(), AllocError>
    ensures ok { OnOk result (book.new.items ≡
        booked_as outs.now.used book.old.items id offset outs.now.grown) }
    ensures err { OnErr result (book.new.items ≡ book.old.items) }
    ensures memory { OnErr result (TakesMemory outs.now) }
{
    match outs.used() {
        Some(fresh) => branch(alloc, book, id, offset, fresh),
        None => lengthen(book.as_mut_slice(), id, outs.grown()),
    }
}

/// A copy of what the file is replaced by, where it is.
pub(crate) fn copied(alloc: Global, outs: &Outs) -> Result<Option<Vec<u8>>, AllocError>
    ensures ok { IfOk result (λ copy. option_map (λ b. b.items) copy ≡ outs.now.replaced) }
    ensures memory { OnErr result (TakesMemory outs.now) }
{
    match outs.replaced() {
        Some(bytes) => {
            let mut copy = Vec::new(alloc);
            copy.extend_from_slice(bytes)?;
            Ok(Some(copy))
        }
        None => Ok(None),
    }
}

/// What a call gave out, but for its reply, goes to the file, the links and the book.
fn give(
    slot: &mut Slot,
    links: &mut Vec<Link>,
    book: &mut Vec<BookEntry>,
    giving: &Giving<'_>,
) -> Result<(), AllocError>
    ensures file { OnOk result (slot.new ≡
        record slot.old { file = filed giving.now.outs.now slot.old.file }) }
    ensures links { OnOk result (links.new.items ≡
        map (reached giving.now.node giving.now.outs.now) links.old.items) }
    ensures book { OnOk result (book.new.items ≡
        booked_as giving.now.outs.now.used book.old.items giving.now.id giving.now.offset
        giving.now.outs.now.grown) }
    ensures no_file { OnErr result (slot.new ≡ slot.old) }
    ensures no_links { OnErr result (links.new.items ≡ links.old.items) }
    ensures no_book { OnErr result (book.new.items ≡ book.old.items) }
    ensures memory { OnErr result (TakesMemory giving.now.outs.now) }
{
    let alloc = *links.allocator();
    let outs = giving.outs;
    let Ok(replaced) = copied(alloc, outs) else {
        return Err(AllocError);
    };
    if slot.append(outs.appended()).is_err() {
        return Err(AllocError);
    }
    if feed_in(links, giving.node, outs).is_err() {
        slot.shorten(outs.appended().len());
        return Err(AllocError);
    }
    if write_book(alloc, book, giving.id, giving.offset, outs).is_err() {
        unfeed_in(links, giving.node, outs);
        slot.shorten(outs.appended().len());
        return Err(AllocError);
    }
    shut_in(links, giving.node, outs);
    slot.replace(replaced);
    Ok(())
}

/// What a node says to its master is sent on the link that it dialled last.
fn say(links: &mut [Link], l: usize, outs: &Outs) -> Result<(), AllocError>
    ensures ok { OnOk result (links.new ≡ said_on outs.now.link l outs.now.reply links.old) }
    ensures err { OnErr result (links.new ≡ links.old) }
    ensures some { OnErr result (outs.now.reply ≢ []) }
{
    if outs.link().is_none() {
        return Ok(());
    }
    if l >= links.len() {
        return Ok(());
    }
    links[l].ask(outs.reply())
}

/// It wasn't.
fn unsay(links: &mut [Link], l: usize, outs: &Outs)
    ensures { links.new ≡ unsaid_on outs.now.link l (length outs.now.reply) links.old }
{
    if outs.link().is_none() {
        return;
    }
    if l >= links.len() {
        return;
    }
    links[l].unask(outs.reply().len());
}

/// The same as `say`, of a vector.
fn say_in(links: &mut Vec<Link>, l: usize, outs: &Outs) -> Result<(), AllocError>
    ensures ok { OnOk result (links.new.items ≡
        said_on outs.now.link l outs.now.reply links.old.items) }
    ensures err { OnErr result (links.new.items ≡ links.old.items) }
    ensures some { OnErr result (outs.now.reply ≢ []) }
{
    say(links.as_mut_slice(), l, outs)
}

/// The same as `unsay`, of a vector.
fn unsay_in(links: &mut Vec<Link>, l: usize, outs: &Outs)
    ensures { links.new.items ≡
        unsaid_on outs.now.link l (length outs.now.reply) links.old.items }
{
    unsay(links.as_mut_slice(), l, outs);
}

/// What a tick gave out goes to the file, the links and the book.
pub fn give_tick(
    slot: &mut Slot,
    links: &mut Vec<Link>,
    book: &mut Vec<BookEntry>,
    giving: &Giving<'_>,
) -> Result<(), AllocError>
    ensures file { OnOk result (slot.new ≡
        record slot.old { file = filed giving.now.outs.now slot.old.file }) }
    ensures links { OnOk result (links.new.items ≡
        said_on giving.now.outs.now.link slot.old.dialled giving.now.outs.now.reply
        (map (reached giving.now.node giving.now.outs.now) links.old.items)) }
    ensures book { OnOk result (book.new.items ≡
        booked_as giving.now.outs.now.used book.old.items giving.now.id giving.now.offset
        giving.now.outs.now.grown) }
    ensures no_file { OnErr result (slot.new ≡ slot.old) }
    ensures no_links { OnErr result (links.new.items ≡ links.old.items) }
    ensures no_book { OnErr result (book.new.items ≡ book.old.items) }
    ensures memory { OnErr result (TakesMemory giving.now.outs.now) }
{
    let outs = giving.outs;
    let l = slot.dialled();
    if say_in(links, l, outs).is_err() {
        return Err(AllocError);
    }
    if give(slot, links, book, giving).is_err() {
        unsay_in(links, l, outs);
        return Err(AllocError);
    }
    Ok(())
}

/// The server's end is as its node has it behind a step with these outs: closed, or open, with what is left unread.
fn settle(link: &mut Link, slot: &Slot, outs: &Outs)
    requires { IsBehind slot.now.node link.old.name outs.now }
    ensures { link.new ≡ settled (end_of slot.now.node link.old.name) link.old }
{
    if outs.closes() {
        link.shut();
        return;
    }
    let name = link.name();
    let Some(left) = slot.unread(name) else {
        unreachable!()
    };
    link.stay(!slot.is_client(name), left);
}

/// What a step at a server's end gave out goes to the file, the links and the book.
pub fn give_step(
    slot: &mut Slot,
    links: &mut Vec<Link>,
    book: &mut Vec<BookEntry>,
    l: usize,
    giving: &Giving<'_>,
) -> Result<(), AllocError>
    requires link { l < length links.old.items }
    requires behind { (k : LinkState) → slice_get links.old.items l ≡ Some k →
        IsBehind slot.old.node k.name giving.now.outs.now }
    ensures file { OnOk result (slot.new ≡
        record slot.old { file = filed giving.now.outs.now slot.old.file }) }
    ensures links { OnOk result ((k : LinkState) → slice_get links.old.items l ≡ Some k →
        links.new.items ≡ answered_links giving.now.node l k slot.old.node giving.now.outs.now
        links.old.items) }
    ensures book { OnOk result (book.new.items ≡
        booked_as giving.now.outs.now.used book.old.items giving.now.id giving.now.offset
        giving.now.outs.now.grown) }
    ensures no_file { OnErr result (slot.new ≡ slot.old) }
    ensures no_links { OnErr result (links.new.items ≡ links.old.items) }
    ensures no_book { OnErr result (book.new.items ≡ book.old.items) }
    ensures memory { OnErr result (TakesMemory giving.now.outs.now) }
{
    let outs = giving.outs;
    if links[l].tell(outs.reply()).is_err() {
        return Err(AllocError);
    }
    if give(slot, links, book, giving).is_err() {
        links[l].untell(outs.reply().len());
        return Err(AllocError);
    }
    settle(&mut links[l], slot, outs);
    Ok(())
}
