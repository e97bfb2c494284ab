//! Reads the text of the parameters.
ghost use Rattle.std.specs.Prelude.{◌≡◌, ◌≤◌, IfOk, length};
ghost use Rattle.seal_record.specs.{Limits.{longest_text}, Lines.{lines_of}};
ghost use Rattle.seal_record.specs.{ParamsSoFar.{no_params_yet}, Ranges.{IsParams}, Reading.{lines_read, params_read}};

use crate::lines::first_line;
use crate::params::{ParamFault, Params};
use crate::params_so_far::ParamsSoFar;

/// How many bytes a text of parameters has at most.
const LONGEST_TEXT: usize = 65_536;

/// Reads the parameters of a taximeter from a text of lines. Each line ends with an LF, before which
/// one CR is dropped; the last line may end with the text. An empty line, and one that begins with
/// `#`, are passed over, but are numbered. Each other line is a key, one blank and a value:
///
/// ```text
/// taxi     1 to 16 characters of A to Z, 0 to 9 and -
/// constant 500 to 200000, pulses a kilometre
/// mode     single or double
/// hold     0 to 600, seconds
/// offset   a second of 946684800 to 7258118399, one blank, and the offset from it on: -50400 to 50400
/// secured  YYYY-MM-DD, a date of 2000 to 2199
/// ```
///
/// Numbers have 1 to 12 digits. There are one to 32 lines `offset`, in order: the first second is
/// 946684800, and each is greater than the one before. Each other key stands once. The form is this
/// project's own. No memory is taken.
///
/// `TooLong`: the text has more than 65,536 bytes. Else the fault of the first bad line: `Unknown` if its key is no
/// parameter's, `Twice` if its key stood before and may stand once, `BadValue` if its value is not of its form. Else
/// `Missing`, with the first parameter of the table that no line gives. The law `texts_say_parameters_line_by_line`
/// says what lines, keys and numbers are.
pub fn read_params(text: &[u8]) -> Result<Params, ParamFault>
    ensures answer { result ≡ params_read text.now }
    ensures ranges { IfOk result IsParams }
{
    read_text(text)
}

/// What a text of parameters is read as.
#[tactic(auto, unfolding(crate::specs::Reading::params_read))]
fn read_text(text: &[u8]) -> Result<Params, ParamFault>
    ensures { result ≡ params_read text.now }
{
    if text.len() > LONGEST_TEXT {
        return Err(ParamFault::TooLong);
    }
    let said = read_lines(text)?;
    said.whole()
}

/// What the lines of a text say.
#[tactic(auto, unfolding(crate::specs::Reading::lines_read))]
fn read_lines(text: &[u8]) -> Result<ParamsSoFar, ParamFault>
    requires { length text.now ≤ longest_text }
    ensures { result ≡ lines_read no_params_yet 1 (lines_of text.now) }
{
    let mut said = ParamsSoFar::nothing();
    let mut number = 1;
    let mut rest = text;
    loop {
        let (line, more) = first_line(rest);
        said = said.with_line(number, line)?;
        let Some(more) = more else {
            return Ok(said);
        };
        rest = more;
        number += 1;
    }
}
