//! The moves of a step and the changes of a plan, by the names that a script has for their
//! elements.
ghost use Rattle.script_tokens.specs.Productions.{Gives};
ghost use Rattle.script_grammar.specs.Changes.{enter_of, go_of, move_of, add_of, drop_of, change_of};

use crate::element::{
    ElementName, New, element, fresh, named_on, optional_to_state, to_state, whole_element,
};
use schema_version::ElementState;
use script_tokens::{LineFault, Production, Token, at_end, is_word};
use std::alloc::Global;

/// A move of a step.
#[derive(Drop)]
pub enum NamedMove {
    /// `add NEW [to STATE]`; no `to` is `to delete_only`.
    Enter {
        fresh: New,
        to: ElementState,
    },
    /// `move TABLE.NAME to STATE`
    Go {
        element: ElementName,
        to: ElementState,
    },
    /// `turn TABLE.NAME`: from being added to being dropped, in the state in which it is.
    Turn {
        element: ElementName,
    },
}

/// A change that a plan brings about.
#[derive(Drop)]
pub enum NamedChange {
    /// `add NEW`
    Add(New),
    /// `drop index NAME on TABLE`
    DropIndex(ElementName),
    /// `drop column NAME on TABLE`
    DropColumn(ElementName),
    /// `abandon TABLE.NAME`: the add of an element that is not public yet is taken back.
    Abandon(ElementName),
}

#[tactic(auto, unfolding(crate::specs::Changes::enter_of))]
fn enter(alloc: Global, tokens: &[Token<'_>]) -> Result<NamedMove, LineFault>
    ensures { Gives (λ x. x) result (enter_of tokens.now) }
{
    let (fresh, rest) = fresh(alloc, tokens)?;
    let to = optional_to_state(rest)?;
    Ok(NamedMove::Enter { fresh, to })
}

#[tactic(auto, unfolding(crate::specs::Changes::go_of))]
fn go(alloc: Global, tokens: &[Token<'_>]) -> Result<NamedMove, LineFault>
    ensures { Gives (λ x. x) result (go_of tokens.now) }
{
    let (element, rest) = element(alloc, tokens)?;
    let to = to_state(rest)?;
    Ok(NamedMove::Go { element, to })
}

impl Production for NamedMove {
    ghost parsed = { move_of };

    #[tactic(auto, unfolding(crate::specs::Changes::move_of))]
    fn read(alloc: Global, tokens: &[Token<'_>]) -> Result<NamedMove, LineFault> {
        let [first, rest @ ..] = tokens else {
            return Err(LineFault::Malformed);
        };
        if is_word(first, b"add") {
            enter(alloc, rest)
        } else if is_word(first, b"move") {
            go(alloc, rest)
        } else if is_word(first, b"turn") {
            let element = whole_element(alloc, rest)?;
            Ok(NamedMove::Turn { element })
        } else {
            Err(LineFault::Malformed)
        }
    }
}

#[tactic(auto, unfolding(crate::specs::Changes::add_of))]
fn add(alloc: Global, tokens: &[Token<'_>]) -> Result<NamedChange, LineFault>
    ensures { Gives (λ x. x) result (add_of tokens.now) }
{
    let (fresh, rest) = fresh(alloc, tokens)?;
    at_end(NamedChange::Add(fresh), rest)
}

/// What is after a `drop`.
#[tactic(auto, unfolding(crate::specs::Changes::drop_of))]
fn drop_change(alloc: Global, tokens: &[Token<'_>]) -> Result<NamedChange, LineFault>
    ensures { Gives (λ x. x) result (drop_of tokens.now) }
{
    let [first, rest @ ..] = tokens else {
        return Err(LineFault::Malformed);
    };
    if is_word(first, b"index") {
        let element = named_on(alloc, rest)?;
        Ok(NamedChange::DropIndex(element))
    } else if is_word(first, b"column") {
        let element = named_on(alloc, rest)?;
        Ok(NamedChange::DropColumn(element))
    } else {
        Err(LineFault::Malformed)
    }
}

impl Production for NamedChange {
    ghost parsed = { change_of };

    #[tactic(auto, unfolding(crate::specs::Changes::change_of))]
    fn read(alloc: Global, tokens: &[Token<'_>]) -> Result<NamedChange, LineFault> {
        let [first, rest @ ..] = tokens else {
            return Err(LineFault::Malformed);
        };
        if is_word(first, b"add") {
            add(alloc, rest)
        } else if is_word(first, b"drop") {
            drop_change(alloc, rest)
        } else if is_word(first, b"abandon") {
            let element = whole_element(alloc, rest)?;
            Ok(NamedChange::Abandon(element))
        } else {
            Err(LineFault::Malformed)
        }
    }
}
