//! Bodies of joins and removals: a server as a JSON object.
ghost use Rattle.std.specs.Prelude.{◌≡◌, IfOk, option_map, codes};
ghost use Rattle.serde_json.specs.View.{view};
ghost use Rattle.rq_bodies.specs.Body.{Answers};
ghost use Rattle.rq_bodies.specs.Member as spec;

use crate::error::BodyError;
use crate::parsing::json_of;
use rq_request::Member;
use rq_values::{Addr, Id, NoMemory};
use serde_json::Value as Json;
use std::alloc::Global;

/// The server that the body of a join names, or why it names none.
pub fn parse_join(alloc: Global, body: &[u8]) -> Result<Member, BodyError>
    ensures { Answers (spec.joining body.now) result }
{
    match json_of(alloc, body) {
        Ok(Some(json)) => {
            let member = member_of(alloc, &json);
            drop(json);
            match member {
                Ok(Some(member)) => Ok(member),
                Ok(None) => Err(BodyError::BadMember),
                Err(NoMemory) => Err(BodyError::NoMemory),
            }
        }
        Ok(None) => Err(BodyError::NotJson),
        Err(NoMemory) => Err(BodyError::NoMemory),
    }
}

/// The id of the server that the body of a removal names, or why it names none.
pub fn parse_remove(alloc: Global, body: &[u8]) -> Result<Id, BodyError>
    ensures { Answers (spec.removing body.now) result }
{
    match json_of(alloc, body) {
        Ok(Some(json)) => {
            let id = id_in(&json);
            drop(json);
            match id {
                Some(id) => Ok(id),
                None => Err(BodyError::BadMember),
            }
        }
        Ok(None) => Err(BodyError::NotJson),
        Err(NoMemory) => Err(BodyError::NoMemory),
    }
}

/// The server of an object with all of its keys.
fn member_of(alloc: Global, json: &Json) -> Result<Option<Member>, NoMemory>
    ensures { IfOk result (λ member. member ≡ spec.member_of (view json.now)) }
{
    let (Some(id), Some(voter)) = (id_in(json), voter_in(json)) else {
        return Ok(None);
    };
    match addr_at(alloc, json, "http") {
        Ok(Some(http)) => match addr_at(alloc, json, "raft") {
            Ok(Some(raft)) => Ok(Some(Member {
                id,
                voter,
                http,
                raft,
            })),
            Ok(None) => {
                drop(http);
                Ok(None)
            }
            Err(error) => {
                drop(http);
                Err(error)
            }
        },
        Ok(None) => Ok(None),
        Err(error) => Err(error),
    }
}

/// The text under a key of an object.
fn text_at<'a>(json: &'a Json, key: &str) -> Option<&'a str>
    ensures { option_map (λ text. text.now) result ≡ spec.text_at key.now (view json.now) }
{
    match json.get(key) {
        Some(value) => value.as_str(),
        None => None,
    }
}

fn id_in(json: &Json) -> Option<Id>
    ensures { result ≡ spec.id_in (view json.now) }
{
    match text_at(json, "id") {
        Some(text) => Id::new(text.as_bytes()),
        None => None,
    }
}

fn voter_in(json: &Json) -> Option<bool>
    ensures { result ≡ spec.voter_in (view json.now) }
{
    match json.get("voter") {
        Some(value) => value.as_bool(),
        None => None,
    }
}

fn addr_at(alloc: Global, json: &Json, key: &str) -> Result<Option<Addr>, NoMemory>
    ensures { IfOk result (λ addr. addr ≡ spec.addr_at key.now (view json.now)) }
{
    match text_at(json, key) {
        Some(text) => Addr::new(alloc, text.as_bytes()),
        None => Ok(None),
    }
}
