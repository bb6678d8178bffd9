//! The statements of a body, prepared for the log.
ghost use Rattle.std.specs.Prelude.{◌≡◌, ℕ, List, Some, None, IfOk, MatchOption};
ghost use Rattle.rq_json.specs.Body.{texts_of};
ghost use Rattle.rq_script.specs.Preparing.{AreRead};
ghost use Rattle.rq_script.specs.ReadLine.{action_read};
ghost use Rattle.rq_cluster.specs.Events.{IsAsk, IsEvent, Puts, PutsNothing};

use rq_json::statements_of;
use rq_node::Event;
use rq_script::Action;
use rq_settle::prepare;
use rq_statement::Item;
use rq_values::{NoMemory, Seq, Text};
use std::alloc::Global;

/// The event that an action puts to a node, or None exactly where it has a body that is no list of statements. An ask has the
/// next number, and counts only where there is an event.
pub fn event_of(
    alloc: Global,
    asks: &mut u64,
    action: &Action<'_>,
) -> Result<Option<Event>, NoMemory>
    requires puts { IsEvent (action_read action.now) }
    ensures event { IfOk result (λ found. MatchOption found (PutsNothing (action_read action.now)) (λ event. Puts (action_read action.now) asks.old asks.new event)) }
{
    match action {
        Action::Elect => Ok(Some(Event::Elect)),
        Action::Apply => Ok(Some(Event::Apply)),
        Action::Execute { body } => match next_ask(alloc, asks, body)? {
            Some((number, items)) => Ok(Some(Event::Execute { number, items })),
            None => Ok(None),
        },
        Action::Query { body } => match next_ask(alloc, asks, body)? {
            Some((number, items)) => Ok(Some(Event::Query { number, items })),
            None => Ok(None),
        },
        _ => unreachable!(),
    }
}

/// The number of the next ask, and the prepared statements of its body, or None exactly where it is no list of them. The ask
/// counts only where it has them.
fn next_ask(
    alloc: Global,
    asks: &mut u64,
    body: &[u8],
) -> Result<Option<(u64, Seq<Item>)>, NoMemory>
    ensures read { IfOk result (λ ask. MatchOption ask (texts_of body.now ≡ None) (λ x. IsAsk body.now asks.old asks.new x.0 x.1)) }
{
    let Some(items) = items_of(alloc, body)? else {
        return Ok(None);
    };
    let number = asks.checked_add(1).ok_or(NoMemory)?;
    *asks = number;
    Ok(Some((number, items)))
}

/// The prepared statements of a body, or None exactly where it is no list of them.
fn items_of(alloc: Global, body: &[u8]) -> Result<Option<Seq<Item>>, NoMemory>
    ensures read { IfOk result (λ items. MatchOption items (texts_of body.now ≡ None) (λ list. (texts : List (List ℕ)) × (texts_of body.now ≡ Some texts) × AreRead texts list)) }
{
    match statements_of(alloc, body)? {
        Some(texts) => Ok(Some(prepared_all(alloc, texts.as_slice())?)),
        None => Ok(None),
    }
}

/// The statements, prepared.
#[tactic(auto, using(crate::proofs::Readings::none_read, crate::proofs::Readings::one_more_read))]
fn prepared_all(alloc: Global, texts: &[Text]) -> Result<Seq<Item>, NoMemory>
    ensures read { IfOk result (λ items. AreRead texts.now items) }
{
    let mut items = Seq::new(alloc);
    for text in texts {
        items.push(prepare(alloc, text.bytes())?)?;
    }
    Ok(items)
}
