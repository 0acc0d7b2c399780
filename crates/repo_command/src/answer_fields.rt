ghost use Rattle.std.specs.Prelude.{◌≡◌, ◌+◌, ◌^◌, ◌<◌, length, MatchResult, Ok, Err};
ghost use Rattle.ndn_tlv.specs.Elements.{item};
ghost use Rattle.repo_command.specs.Answers.{answer_so_far, with_answer_field, answer_fields, whole_answer};

use crate::answer::Answer;
use crate::element_types::{DELETE_NUM, INSERT_NUM, PROCESS_ID, STATUS_CODE};
use ndn_tlv::{Element, FieldReader, Place, Reader, read_number};

#[derive(Clone, Copy, Debug)]
pub(crate) enum AnswerField {
    ProcessId,
    StatusCode,
    InsertNum,
    DeleteNum,
}

pub(crate) const RESPONSE: [Place<AnswerField>; 4] = [
    Place {
        typ: PROCESS_ID,
        field: AnswerField::ProcessId,
        repeats: false,
    },
    Place {
        typ: STATUS_CODE,
        field: AnswerField::StatusCode,
        repeats: false,
    },
    Place {
        typ: INSERT_NUM,
        field: AnswerField::InsertNum,
        repeats: false,
    },
    Place {
        typ: DELETE_NUM,
        field: AnswerField::DeleteNum,
        repeats: false,
    },
];

/// The fields are not those of an answer.
#[derive(Clone, Copy, Debug)]
pub(crate) struct AnswerError;

// The fields of a RepoCommandResponse as far as they have come.
#[derive(Clone, Copy)]
pub(crate) struct AnswerFields {
    process: Option<u64>,
    code: Option<u64>,
    inserted: Option<u64>,
    deleted: Option<u64>,
}

impl AnswerFields {
    pub(crate) fn of_fields(element: Element<'_>) -> Result<AnswerFields, AnswerError>
        requires { element.value_start + length element.value.now < 2 ^ 64 }
        ensures { MatchResult result
            (λ g. answer_fields (item element.entry) ≡ Ok (answer_so_far g))
            (λ refusal. answer_fields (item element.entry) ≡ Err refusal) }
    {
        let elements = Reader::new(element.value, element.value_start);
        let mut fields = FieldReader::new(elements, &RESPONSE);
        let mut gathered = AnswerFields {
            process: None,
            code: None,
            inserted: None,
            deleted: None,
        };
        loop {
            match fields.next() {
                Ok(Some(next)) => gathered.take(next.0, next.1)?,
                Ok(None) => return Ok(gathered),
                Err(_) => return Err(AnswerError),
            }
        }
    }

    fn take(&mut self, field: AnswerField, element: Element<'_>) -> Result<(), AnswerError>
        ensures { MatchResult result
            (λ _. with_answer_field (answer_so_far self.old) (field, item element.entry)
            ≡ Ok (answer_so_far self.new))
            (λ refusal. with_answer_field (answer_so_far self.old) (field, item element.entry)
            ≡ Err refusal) }
    {
        let number = read_number(element.value).ok_or(AnswerError)?;
        match field {
            AnswerField::ProcessId => self.process = Some(number),
            AnswerField::StatusCode => self.code = Some(number),
            AnswerField::InsertNum => self.inserted = Some(number),
            AnswerField::DeleteNum => self.deleted = Some(number),
        }
        Ok(())
    }

    // The answer of these fields, where its code is there and is one.
    pub(crate) fn into_answer(self) -> Option<Answer>
        ensures { result ≡ whole_answer (answer_so_far self) }
    {
        let code = u16::try_from(self.code?).ok()?;
        Some(Answer {
            code,
            process: self.process,
            inserted: self.inserted,
            deleted: self.deleted,
        })
    }
}
