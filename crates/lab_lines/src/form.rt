ghost use Rattle.std.specs.Prelude.{◌≡◌, ◌++◌, IfOk, OnOk, option_map};
ghost use Rattle.lab_text.specs.Outcomes.{IsEnd};
ghost use Rattle.lab_lines.specs.Folding.{FormOf, lined};
ghost use Rattle.script_lines.specs.Scripts.{reached};

use lab_text::LabStatus;
use script_lines::Script;
use script_story::Ending;
use std::alloc::AllocError;

/// What is written of the lines of a script and of the notes between them. Text is appended to what stands in `text`,
/// and the caller writes it before it looks for the next line. After an error the form is of no more use.
pub trait Form {
    /// The form, as one that keeps its own value from line to line.
    ghost form: { FormOf Self };

    /// Whether the notes right after a line that stops the script are read.
    fn reads_on(&self) -> bool
        ensures { result ≡ form.reads_on };

    /// Takes a note, with its line feed where it has one.
    fn note(&mut self, note: &[u8]) -> Result<(), AllocError>
        ensures { OnOk result (self.new ≡ form.note self.old note.now) };

    /// Looks at the script before a line, which has no line feed here. The line is then taken, or stops the script.
    fn before(&mut self, script: &Script, line: &[u8]) -> Result<(), AllocError>
        ensures { OnOk result (self.new ≡ form.before self.old (reached script.now).state line.now) };

    /// Takes a line of the script, without its line feed: its number among the script's lines, its report, and the
    /// script after it. At the line that stops the script the report says so, and there is no script after it.
    fn line(
        &mut self,
        number: u32,
        line: &[u8],
        report: &[u8],
        after: Option<&Script>,
        text: &mut Vec<u8>,
    ) -> Result<(), AllocError>
        ensures kept { OnOk result (self.new ≡ form.line self.old
            (lined number line.now report.now (option_map (λ script. (reached script.now).state) after.entry))) }
        ensures text { OnOk result (text.new.items ≡ text.old.items ++ form.text self.old
            (lined number line.now report.now (option_map (λ script. (reached script.now).state) after.entry))) };

    /// Ends with the script, and answers the status.
    fn end(&mut self, ending: Ending, text: &mut Vec<u8>) -> Result<LabStatus, AllocError>
        ensures text { OnOk result (text.new.items ≡ text.old.items ++ (form.end self.old ending).text) }
        ensures status { IfOk result (λ status. status ≡ (form.end self.old ending).status) }
        ensures is_end { IfOk result IsEnd };
}
