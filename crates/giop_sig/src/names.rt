//! Numbers with a mark that have names: ids of service contexts, tags of profiles, code sets and
//! minor codes.

ghost use Rattle.std.specs.Prelude.{◌≡◌, ◌≤◌, ◌/◌, length, map, slice_get, IfSome};
ghost use Rattle.std.specs.Option.{option_map};
ghost use Rattle.giop_sig.specs.Names.{code_set_name, context_names, marked_name, minor_name, name_text, profile_names, vendor_name};

use crate::numbers::{CODE_SET_MARK, CONTEXT_ID_MARK, MINOR_MARK, PROFILE_TAG_MARK};

/// The name of a number: a word, or the word of a vendor and the vendor's own code.
#[derive(Clone, Copy, Debug, PartialEq, Eq)]
pub struct NumberName {
    /// The word. For a minor code it is the vendor's.
    pub word: &'static [u8],
    /// The vendor's code, from 0 to 4095. None for other numbers.
    pub code: Option<u16>,
}

/// The names of the ids of service contexts, from id 0 on (IOP, Standard Service Contexts).
static CONTEXTS: [&[u8]; 18] = [
    b"TransactionService",
    b"CodeSets",
    b"ChainBypassCheck",
    b"ChainBypassInfo",
    b"LogicalThreadId",
    b"BI_DIR_IIOP",
    b"SendingContextRunTime",
    b"INVOCATION_POLICIES",
    b"FORWARDED_IDENTITY",
    b"UnknownExceptionInfo",
    b"RTCorbaPriority",
    b"RTCorbaPriorityRange",
    b"FT_GROUP_VERSION",
    b"FT_REQUEST",
    b"ExceptionDetailMessage",
    b"SecurityAttributeService",
    b"ActivityService",
    b"RMICustomMaxStreamFormat",
];

/// The names of the tags of profiles, from tag 0 on (IOP, Standard IOR Profiles).
static PROFILES: [&[u8]; 4] = [
    b"TAG_INTERNET_IOP",
    b"TAG_MULTIPLE_COMPONENTS",
    b"TAG_SCCP_IOP",
    b"TAG_UIPMC",
];

/// The name of a number with this mark, if it has one. A number with mark 3 is the id of a service
/// context, with 4 the tag of a profile, with 5 a code set, and with 6 a minor code. Numbers with
/// other marks have no names.
#[tactic(auto, unfolding(crate::specs::Names::marked_name))]
pub fn number_name(mark: u32, n: u32) -> Option<NumberName>
    ensures name { option_map name_text result ≡ marked_name mark n }
    ensures short { IfSome result (λ name. length name.word.now ≤ 64) }
{
    match mark {
        CONTEXT_ID_MARK => without_code(CONTEXTS.get(n as usize).copied()),
        PROFILE_TAG_MARK => without_code(PROFILES.get(n as usize).copied()),
        CODE_SET_MARK => without_code(name_of_code_set(n)),
        MINOR_MARK => minor_code_name(n),
        _ => None,
    }
}

/// The name that has only this word, if there is a word.
fn without_code(word: Option<&'static [u8]>) -> Option<NumberName>
    ensures name { option_map name_text result ≡ option_map (λ word. word.now) word.entry }
    ensures short { IfSome word.entry (λ word. length word.now ≤ 64) →
        IfSome result (λ name. length name.word.now ≤ 64) }
{
    let word = word?;
    Some(NumberName { word, code: None })
}

/// The name of a minor code: its vendor, and its lower 12 bits.
fn minor_code_name(n: u32) -> Option<NumberName>
    ensures name { option_map name_text result ≡ minor_name n }
    ensures short { IfSome result (λ name. length name.word.now ≤ 64) }
{
    let word = vendor_of_code(n / 4096)?;
    let code = Some((n % 4096) as u16);
    Some(NumberName { word, code })
}

/// The name of a code set.
#[tactic(auto, unfolding(crate::specs::Names::code_set_name))]
fn name_of_code_set(n: u32) -> Option<&'static [u8]>
    ensures word { option_map (λ word. word.now) result ≡ code_set_name n }
    ensures short { IfSome result (λ word. length word.now ≤ 64) }
{
    match n {
        0x0001_0001 => Some(b"ISO_8859_1"),
        0x0001_0020 => Some(b"ISO_646"),
        0x0001_0100 => Some(b"UCS_2"),
        0x0001_0106 => Some(b"UCS_4"),
        0x0001_0109 => Some(b"UTF_16"),
        0x0501_0001 => Some(b"UTF_8"),
        _ => None,
    }
}

/// The vendor with these upper 20 bits of minor codes.
#[tactic(auto, unfolding(crate::specs::Names::vendor_name))]
fn vendor_of_code(n: u32) -> Option<&'static [u8]>
    ensures word { option_map (λ word. word.now) result ≡ vendor_name n }
    ensures short { IfSome result (λ word. length word.now ≤ 64) }
{
    match n {
        0x4f4d0 => Some(b"OMG"),
        0x41540 => Some(b"omniORB"),
        0x54410 => Some(b"TAO"),
        _ => None,
    }
}
