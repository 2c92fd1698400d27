//! Sessions that go on from one call to the next: each is behind a handle.

ghost use Rattle.std.specs.Prelude.{◌≡◌, ◌≢◌, IfErr, is_ok, true, None};
ghost use Rattle.ymachine.specs.declared.machine.Edit.TheVariants as edits;
ghost use Rattle.yhandles.specs.Expected.{Foretold};
ghost use Rattle.yhandles.specs.Moves.{Edited, Inserted, Stepped, Undone};
ghost use Rattle.yhandles.specs.Texts.{Showed, Treed, Unwound, text_status};
ghost use Rattle.yembed.specs.Handles.{Hands, Moves, Opens, Stands, Texts, Travels};
ghost use Rattle.yembed.specs.Handles.{standing_after, standing_status};
ghost use Rattle.yembed.specs.Refusals.{IsRefused, Refuses};

use crate::memory::put_bytes;
use crate::refusal::Refusal;
use crate::sources::session_of;
use std::alloc::Global;
use yhandles::Handle;
use yhandles::expected::expected;
use yhandles::moves::{self, Move, tell};
use yhandles::stands::{self, Standing};
use yhandles::texts::{self, Text, text_status};
use yhandles::travel::{travel, travel_status};

/// Gives a handle a session over a grammar and tokens, in place of the one that it had.
fn opened(alloc: Global, grammar: &[u8], tokens: &[u8], handle: &mut Handle) -> Result<(), Refusal>
    ensures opens { is_ok result ≡ true → Opens grammar.now tokens.now handle.new.session }
    ensures refused { IfErr result (Refuses grammar.now tokens.now) }
    ensures stays { IfErr result (λ _. handle.new.session ≡ handle.old.session) }
{
    let session = match session_of(alloc, grammar, tokens) {
        Ok(session) => session,
        Err(refusal) => return Err(refusal),
    };
    if handle.open(alloc, session) {
        Ok(())
    } else {
        Err(Refusal::NoRoom)
    }
}

/// Hands a text over, and answers its status.
fn hand(text: Option<Text>, out: &mut [u8], len: &mut usize) -> u32
    ensures says { result ≡ text_status text }
    ensures hands { Hands text out.old out.new len.new }
{
    let status = text_status(&text);
    match text {
        Some(Ok(text)) => *len = put_bytes(&text, out),
        Some(Err(_)) | None => *len = 0,
    }
    status
}

/// Tells where a session stands, and answers the status: 12 where there is no session.
fn tell_standing(answer: Option<Standing>, place: &mut Standing) -> u32
    ensures says { result ≡ standing_status answer }
    ensures told { place.new ≡ standing_after answer place.old }
{
    match answer {
        Some(now) => {
            *place = now;
            0
        }
        None => 12,
    }
}

/// Gives a handle a session: its first configuration, over a grammar and tokens. A session that it
/// had ends. With a refusal the handle stays as it was.
#[unsafe(no_mangle)]
pub extern "C" fn sulderko_open(
    alloc: Global,
    grammar: &[u8],
    tokens: &[u8],
    handle: &mut Handle,
) -> u32
    ensures opens { result ≡ 0 → Opens grammar.now tokens.now handle.new.session }
    ensures refused { result ≢ 0 → IsRefused (Refuses grammar.now tokens.now) result }
    ensures stays { result ≢ 0 → handle.new.session ≡ handle.old.session }
{
    match opened(alloc, grammar, tokens, handle) {
        Ok(()) => 0,
        Err(refusal) => refusal.status(),
    }
}

/// One step forward, and what was made. A refused one changes nothing.
#[unsafe(no_mangle)]
pub extern "C" fn sulderko_step(alloc: Global, handle: &mut Handle, made: &mut Move) -> u32
    ensures { Moves Stepped handle.old.session handle.new.session result made.old made.new }
{
    tell(moves::step(alloc, handle), made)
}

/// One step or edit back, and what is undone. It is refused only where nothing was made.
#[unsafe(no_mangle)]
pub extern "C" fn sulderko_back(alloc: Global, handle: &mut Handle, made: &mut Move) -> u32
    ensures { Moves Undone handle.old.session handle.new.session result made.old made.new }
{
    tell(moves::back(alloc, handle), made)
}

/// Puts the token that these bytes spell before the upcoming tokens.
#[unsafe(no_mangle)]
pub extern "C" fn sulderko_insert(
    alloc: Global,
    handle: &mut Handle,
    token: &[u8],
    made: &mut Move,
) -> u32
    ensures { Moves (Inserted token.now) handle.old.session handle.new.session result made.old
        made.new }
{
    tell(moves::insert(alloc, handle, token), made)
}

/// Takes out the first of the upcoming tokens.
#[unsafe(no_mangle)]
pub extern "C" fn sulderko_drop(alloc: Global, handle: &mut Handle, made: &mut Move) -> u32
    ensures { Moves (Edited edits.Drop) handle.old.session handle.new.session result made.old
        made.new }
{
    tell(moves::drop_next(alloc, handle), made)
}

/// Goes to a position, by steps or by undos. Where a step is refused, those before it stand.
#[unsafe(no_mangle)]
pub extern "C" fn sulderko_to(alloc: Global, handle: &mut Handle, position: usize) -> u32
    ensures { Travels position handle.old.session handle.new.session result }
{
    travel_status(travel(alloc, handle, position))
}

/// Which tokens could come next: a byte for each, 1 where it could, 0 where it can't, 2 where the
/// limit of positions comes before that shows. The session goes on as it was.
#[unsafe(no_mangle)]
pub extern "C" fn sulderko_expected(
    alloc: Global,
    handle: &mut Handle,
    out: &mut [u8],
    len: &mut usize,
) -> u32
    ensures { Texts Foretold handle.old.session handle.new.session result out.old out.new len.new }
{
    hand(expected(alloc, handle), out, len)
}

/// The five lines of the configuration, as `ystep` replies to `show`.
#[unsafe(no_mangle)]
pub extern "C" fn sulderko_show(
    alloc: Global,
    handle: &mut Handle,
    out: &mut [u8],
    len: &mut usize,
) -> u32
    ensures { Texts Showed handle.old.session handle.new.session result out.old out.new len.new }
{
    hand(texts::show(alloc, handle), out, len)
}

/// A line for each tree of the stack, as `ystep` replies to `tree`.
#[unsafe(no_mangle)]
pub extern "C" fn sulderko_tree(
    alloc: Global,
    handle: &mut Handle,
    out: &mut [u8],
    len: &mut usize,
) -> u32
    ensures { Texts Treed handle.old.session handle.new.session result out.old out.new len.new }
{
    hand(texts::tree(alloc, handle), out, len)
}

/// The forms of an accepted parse without error steps, as `ystep` replies to `unwind`; the session
/// then stands at its start.
#[unsafe(no_mangle)]
pub extern "C" fn sulderko_unwind(
    alloc: Global,
    handle: &mut Handle,
    out: &mut [u8],
    len: &mut usize,
) -> u32
    ensures { Texts Unwound handle.old.session handle.new.session result out.old out.new len.new }
{
    hand(texts::unwind(alloc, handle), out, len)
}

/// Where the session stands: the mode, the position, the state, and how much of what there is.
#[unsafe(no_mangle)]
pub extern "C" fn sulderko_state(alloc: Global, handle: &mut Handle, place: &mut Standing) -> u32
    ensures { Stands handle.old.session handle.new.session result place.old place.new }
{
    tell_standing(stands::stand(alloc, handle), place)
}

/// Ends the session of a handle, which then has none; nothing where it has none.
#[unsafe(no_mangle)]
pub extern "C" fn sulderko_close(alloc: Global, handle: &mut Handle)
    ensures { handle.new.session ≡ None }
{
    handle.close(alloc);
}
