ghost use Rattle.std.specs.Prelude.{◌≡◌, ◌++◌, ◌<◌, IfOk, OnOk};
ghost use Rattle.repo_command.specs.Answers.{code_only, written_field, written_answer, answer_of};

use crate::answer_fields::AnswerFields;
use crate::element_types::{
    DELETE_NUM, INSERT_NUM, PROCESS_ID, REPO_COMMAND_RESPONSE, STATUS_CODE,
};
use ndn_tlv::{Reader, Writer};
use std::alloc::{AllocError, Global};

/// What a repository says to a command.
#[derive(Clone, Copy, Debug, PartialEq, Eq)]
pub struct Answer {
    pub code: u16,
    /// The number of the insertion process.
    pub process: Option<u64>,
    /// How many of its blocks have come.
    pub inserted: Option<u64>,
    /// How many packets were dropped.
    pub deleted: Option<u64>,
}

impl Answer {
    /// An answer that has a code alone.
    pub fn only(code: u16) -> Answer
        ensures { result ≡ code_only code }
    {
        Answer {
            code,
            process: None,
            inserted: None,
            deleted: None,
        }
    }
}

/// Writes the RepoCommandResponse of an answer.
pub fn write_answer(alloc: Global, answer: &Answer) -> Result<Vec<u8>, AllocError>
    ensures { IfOk result (λ octets. octets.items ≡ written_answer answer.now) }
{
    let mut value = Writer::new(alloc);
    put_field(&mut value, PROCESS_ID, answer.process)?;
    value.put_number(STATUS_CODE, u64::from(answer.code))?;
    put_field(&mut value, INSERT_NUM, answer.inserted)?;
    put_field(&mut value, DELETE_NUM, answer.deleted)?;
    let mut writer = Writer::new(alloc);
    writer.put(REPO_COMMAND_RESPONSE, value.octets())?;
    Ok(writer.finish())
}

// Appends a field, where it is there.
fn put_field(writer: &mut Writer, typ: u32, number: Option<u64>) -> Result<(), AllocError>
    requires { 0 < typ }
    ensures { OnOk result (writer.new ≡ writer.old ++ written_field typ number) }
{
    match number {
        Some(n) => writer.put_number(typ, n),
        None => Ok(()),
    }
}

/// The answer that the octets are: one RepoCommandResponse, and nothing else.
pub fn read_answer(octets: &[u8]) -> Option<Answer>
    ensures { result ≡ answer_of octets.now }
{
    let mut elements = Reader::new(octets, 0);
    let Ok(Some(element)) = elements.next() else {
        return None;
    };
    let Ok(None) = elements.next() else {
        return None;
    };
    if element.typ != REPO_COMMAND_RESPONSE {
        return None;
    }
    let gathered = AnswerFields::of_fields(element).ok()?;
    gathered.into_answer()
}
