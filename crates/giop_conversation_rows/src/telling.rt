//! How the sets of conversations are read, each conversation is tried, and it is printed whether it differs.

ghost use Rattle.giop_stream.specs.EngineHolds.{IsRequestTableOf};

use super::conversation::Conversation;
use super::reading::is_read_each_way;
use giop_sig::{Catalogue, Requests};
use giop_testing::Tally;
use std::io;

/// Prints for each conversation whether it is as expected, and at the end how many conversations there were.
pub fn tell(rt: &HostRuntime, text: &str, tally: &mut Tally) -> io::Result<()> {
    for set in text.strip_suffix('\n').unwrap_or("").split("\n=\n") {
        tell_set(rt, set, tally)?;
    }
    println!(rt; "{} conversations, {} differ", tally.rows, tally.differ)
}

fn tell_set(rt: &HostRuntime, set: &str, tally: &mut Tally) -> io::Result<()> {
    let Some((signatures, conversations)) = set.split_once("\n\n") else {
        return unread(rt, "MALFORMED set", set, tally);
    };
    let Ok(catalogue) = Catalogue::parse_types(rt.alloc(), signatures.as_bytes()) else {
        return unread(rt, "REFUSED signature file", signatures, tally);
    };
    match Requests::parse(rt.alloc(), &[], &catalogue) {
        Ok(requests) => tell_conversations(rt, &catalogue, &requests, conversations, tally),
        Err(_) => unread(rt, "REFUSED request list", "", tally),
    }
}

/// Prints a text that can't be read, and counts it as a conversation that differs.
fn unread(rt: &HostRuntime, why: &str, text: &str, tally: &mut Tally) -> io::Result<()> {
    tally.count(false);
    println!(rt; "{why}:\n{text}")
}

fn tell_conversations(
    rt: &HostRuntime,
    catalogue: &Catalogue,
    requests: &Requests,
    conversations: &str,
    tally: &mut Tally,
) -> io::Result<()>
    requires of { IsRequestTableOf catalogue.now requests.now }
{
    for text in conversations.split("\n\n") {
        match Conversation::read(text) {
            Some(conversation) => {
                let is_as_told = is_read_each_way(rt, catalogue, requests, &conversation)?;
                tally.count(is_as_told);
                told(rt, conversation.name, is_as_told)?;
            }
            None => unread(rt, "MALFORMED conversation", text, tally)?,
        }
    }
    Ok(())
}

/// Prints a conversation that is as expected. One that differs was printed already.
fn told(rt: &HostRuntime, name: &str, is_as_told: bool) -> io::Result<()> {
    if is_as_told {
        println!(rt; "ok {name}")?;
    }
    Ok(())
}
