// The operations as one table, a line each: the form, a `:`, what it is for. Help is the table; a line is read field by field, and what
// is wrong with a field is told by its name in the form.
use crate::fields::Fault;
use crate::giving::Form;
use crate::{fields, list, state};

pub(crate) fn table() -> &'static [u8] {
    b"image HEX : lend these bytes as the image
image empty : lend the image with all slots empty
room N : lend an answer buffer of N bytes, each a5
buffer : tell the answer buffer
start N : start unit N
feed HEX : feed these bytes
turn SAMPLE MS STEPS : make one turn
run SAMPLE MS : make turns until the unit is idle or waits for an input
timeline SAMPLE MS : the same, with a line for each turn
unit : tell the unit
store : tell the image
line HEX : judge a body
text HEX : judge a text to be stored
ramp V L N : tell the ramp of N microsteps
ramp V L endless : tell the ramp of an endless move
write SLOT RUN LIST : write a line from a list of commands
read HEX : read an answer packet, OEM where it begins with 02
oem SEQ TEXT : feed an OEM frame for this unit, with its checksum
count HEX : count the commands of a body's run
listen HEX : hear these bytes of the line from a fresh table
older HEX : read a text of the older drive into ours
newer HEX : write a text of ours back for the older drive
/... : feed a line as it is typed, with a CR
help : tell the operations"
}

// What a line asks for.
#[derive(Clone, Copy)]
pub(crate) enum Task {
    Image,
    Empty,
    Room(usize),
    Buffer,
    Store,
    Start(u8),
    Write { slot: Option<u32>, run: bool },
    OnUnit(OnUnit),
    Call(Call),
    Help,
}

// An operation on the unit.
#[derive(Clone, Copy)]
pub(crate) enum OnUnit {
    Feed,
    // The same, its answer told as text.
    Talk,
    Turn { sample: u8, ms: u32, steps: u32 },
    Run(Course),
    Tell,
}

// Turns made one after another, and whether each of them is told.
#[derive(Clone, Copy)]
pub(crate) struct Course {
    pub(crate) sample: u8,
    pub(crate) ms: u32,
    pub(crate) told: bool,
}

// A call that needs neither a unit nor anything lent.
#[derive(Clone, Copy)]
pub(crate) enum Call {
    Line,
    Text,
    // None: an endless move.
    Ramp { v: u32, l: u32, n: Option<u32> },
    Read,
    Count,
    Listen,
    Older,
    Newer,
}

// The fields of a line. What was read stands here and not in what a call answers: on a chip with pointers of 32 bits no enum may
// hold a pointer where it holds a number (`chip/pointer-places`).
#[derive(Clone, Copy)]
pub(crate) struct Fields<'a> {
    // What is left to read; none behind the last field.
    left: Option<&'a [u8]>,
    // The field that was read last, and how its bytes are told.
    pub(crate) field: &'a [u8],
    pub(crate) form: Form,
    // Its name, and those of what is left, with what follows them in the form.
    pub(crate) name: &'static [u8],
    names: &'static [u8],
    // Whether a number was too great, which is told only where nothing else is wrong.
    great: bool,
}

// What a line asks for, and its fields.
pub(crate) fn read(line: &[u8]) -> (Result<Task, Fault>, Fields<'_>) {
    let (word, left) = fields::cut(line, b' ');
    let mut f = Fields {
        left,
        field: b"",
        form: Form::Plain,
        name: b"",
        names: names_of(word),
        great: false,
    };
    let task = task_of(line, word, &mut f);
    (task, f)
}

// What a line asks for, by its first word.
fn task_of<'a>(line: &'a [u8], word: &[u8], f: &mut Fields<'a>) -> Result<Task, Fault> {
    if matches!(line, [b'/', ..]) {
        f.field = line;
        f.form = Form::Typed;
        return Ok(Task::OnUnit(OnUnit::Talk));
    }
    if line == b"image empty".as_slice() {
        return Ok(Task::Empty);
    }
    let task = lending(word, f)?;
    f.close()?;
    Ok(task)
}

// What is lent, the unit started, and a line written into what is lent.
fn lending(word: &[u8], f: &mut Fields<'_>) -> Result<Task, Fault> {
    match word {
        b"image" => {
            f.hex()?;
            f.great = 2 * state::IMAGE_MOST < f.field.len();
            Ok(Task::Image)
        }
        b"room" => Ok(Task::Room(f.room()?)),
        b"buffer" => Ok(Task::Buffer),
        b"store" => Ok(Task::Store),
        b"start" => Ok(Task::Start(f.byte()?)),
        b"help" => Ok(Task::Help),
        b"write" => {
            let slot = f.slot()?;
            let run = f.run()?;
            f.list()?;
            Ok(Task::Write { slot, run })
        }
        _ => on_unit(word, f),
    }
}

// What is done on the unit.
fn on_unit(word: &[u8], f: &mut Fields<'_>) -> Result<Task, Fault> {
    let operation = match word {
        b"feed" => {
            f.hex()?;
            OnUnit::Feed
        }
        b"turn" => {
            let sample = f.byte()?;
            let ms = f.number()?;
            let steps = f.number()?;
            OnUnit::Turn { sample, ms, steps }
        }
        b"run" => OnUnit::Run(f.course(false)?),
        b"timeline" => OnUnit::Run(f.course(true)?),
        b"unit" => OnUnit::Tell,
        b"oem" => {
            let sequence = f.sequence()?;
            f.rest()?;
            f.form = Form::Oem(sequence);
            OnUnit::Talk
        }
        _ => return calls(word, f),
    };
    Ok(Task::OnUnit(operation))
}

// The calls that need no unit.
fn calls(word: &[u8], f: &mut Fields<'_>) -> Result<Task, Fault> {
    let call = match word {
        b"line" => Call::Line,
        b"text" => Call::Text,
        b"ramp" => return f.ramp(),
        b"read" => Call::Read,
        b"count" => Call::Count,
        b"listen" => Call::Listen,
        b"older" => Call::Older,
        b"newer" => Call::Newer,
        _ => return Err(Fault::NoOperation),
    };
    f.hex()?;
    Ok(Task::Call(call))
}

impl Fields<'_> {
    // No field is left, and no number was too great.
    fn close(&self) -> Result<(), Fault> {
        if self.left.is_some() {
            return Err(Fault::TooMany);
        }
        if self.great {
            return Err(Fault::TooGreat);
        }
        Ok(())
    }

    // The next name.
    fn take_name(&mut self) {
        let (name, names) = fields::cut(self.names, b' ');
        self.name = name;
        self.names = names.unwrap_or(b"");
    }

    // All that is left, as the next field.
    fn rest(&mut self) -> Result<(), Fault> {
        self.take_name();
        let Some(rest) = self.left else {
            return Err(Fault::Missing);
        };
        self.field = rest;
        self.left = None;
        Ok(())
    }

    // The next field.
    fn next(&mut self) -> Result<(), Fault> {
        self.rest()?;
        let (field, left) = fields::cut(self.field, b' ');
        self.field = field;
        self.left = left;
        if field.is_empty() {
            return Err(Fault::Missing);
        }
        Ok(())
    }

    // A number; 0 for one of more than 32 bits.
    fn number(&mut self) -> Result<u32, Fault> {
        self.next()?;
        self.read_number()
    }

    fn read_number(&mut self) -> Result<u32, Fault> {
        match fields::number(self.field) {
            Err(Fault::TooGreat) => {
                self.great = true;
                Ok(0)
            }
            n => n,
        }
    }

    // A number that is a byte: that of a unit, or a sample.
    fn byte(&mut self) -> Result<u8, Fault> {
        let n = self.number()?;
        self.great = self.great || u32::from(u8::MAX) < n;
        Ok(u8::try_from(n).unwrap_or(0))
    }

    // The bytes of an answer buffer.
    fn room(&mut self) -> Result<usize, Fault> {
        let n = self.number()? as usize;
        self.great = self.great || state::ROOM_MOST < n;
        Ok(n)
    }

    // A sample and milliseconds.
    fn course(&mut self, told: bool) -> Result<Course, Fault> {
        let sample = self.byte()?;
        let ms = self.number()?;
        Ok(Course { sample, ms, told })
    }

    // Speed, acceleration and microsteps of a ramp, or those of an endless one.
    fn ramp(&mut self) -> Result<Task, Fault> {
        let v = self.number()?;
        let l = self.number()?;
        if !self.great && self.left.unwrap_or(b"") == b"endless".as_slice() {
            self.left = None;
            return Ok(Task::Call(Call::Ramp { v, l, n: None }));
        }
        let n = Some(self.number()?);
        Ok(Task::Call(Call::Ramp { v, l, n }))
    }

    // A slot, or `-` for none.
    fn slot(&mut self) -> Result<Option<u32>, Fault> {
        self.next()?;
        if self.field == b"-".as_slice() {
            return Ok(None);
        }
        Ok(Some(self.read_number()?))
    }

    // `R`, or `-` for none.
    fn run(&mut self) -> Result<bool, Fault> {
        self.next()?;
        match self.field {
            b"R" => Ok(true),
            b"-" => Ok(false),
            _ => Err(Fault::NoRun),
        }
    }

    // A byte of two hex digits.
    fn sequence(&mut self) -> Result<u8, Fault> {
        self.next()?;
        fields::byte(self.field).ok_or(Fault::NoHex)
    }

    // Bytes in hex.
    fn hex(&mut self) -> Result<(), Fault> {
        self.next()?;
        self.form = Form::Hex;
        fields::check_hex(self.field)
    }

    // A list of commands, which may be missing; behind a number that is too great none is read.
    fn list(&mut self) -> Result<(), Fault> {
        if self.left.is_none() && !self.great {
            self.field = b"";
            return Ok(());
        }
        self.rest()?;
        if matches!(self.field, [] | [b' ', ..]) {
            return Err(Fault::Missing);
        }
        if self.great || list::read(self.field, &mut []).is_none() {
            return Err(Fault::BadCommand);
        }
        Ok(())
    }
}

// The names of the fields of an operation, with what follows them in its form.
fn names_of(word: &[u8]) -> &'static [u8] {
    for form in table().split(|b| *b == b'\n') {
        let (first, names) = fields::cut(form, b' ');
        if first == word {
            return names.unwrap_or(b"");
        }
    }
    b""
}
