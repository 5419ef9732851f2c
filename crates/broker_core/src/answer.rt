//! Why a command isn't done, and the commands that answer one.
ghost use Rattle.std.specs.Prelude.{◌≡◌, [], true, false, None, Some, IfOk};
ghost use Rattle.amqp_terms.specs.declared.unit.Unit.TheVariants as unit;
ghost use Rattle.amqp_structs.specs.Results.{result_fine};
ghost use Rattle.serial_ranges.specs.Serial.{serial_of};
ghost use Rattle.broker_core.specs.Commands.{asker_of};
ghost use Rattle.broker_core.specs.Verdict.{or_empty, is_empty, is_reserved, error_name, exception_unit, result_unit, refused, answered, stopped};

use crate::edit::Edit;
use crate::plan::Plan;
use amqp_commands::CommandKind;
use amqp_structs::write_result;
use amqp_terms::{Command, ResultValue, Unit};
use amqp_values::{NoMemory, Text, Value};
use std::alloc::Global;

/// Why a command isn't done.
#[derive(Clone, Copy, Debug, PartialEq, Eq)]
pub enum Stop {
    /// It is completed without effect.
    Skip,
    /// It has an exception with this error code (AMQP 0-10, "execution.error-code").
    Refuse(u16),
}

/// The session that does a command, and the command's number, class and code.
#[derive(Clone, Copy, Debug)]
pub struct Asker {
    pub session: u64,
    pub number: u64,
    pub class: u8,
    pub code: u8,
}

impl Asker {
    /// Of a command.
    pub(crate) fn of(session: u64, number: u64, command: &Command) -> Asker
        ensures { result ≡ asker_of session number command.now }
    {
        let (class, code) = match CommandKind::of(command) {
            Some(kind) => (kind.class(), kind.code()),
            None => match command {
                Command::Unknown { class, code, .. } => (*class, *code),
                _ => (0, 0),
            },
        };
        Asker {
            session,
            number,
            class,
            code,
        }
    }

    /// The command's number on the wire.
    fn serial(self) -> u32
        ensures { result ≡ serial_of self.number }
    {
        (self.number % 4_294_967_296) as u32
    }

    /// An exception.
    fn exception(self, alloc: Global, code: u16) -> Result<Unit, NoMemory>
        ensures { IfOk result (λ made. made ≡ exception_unit self code) }
    {
        let description = Text::from_text(alloc, error_name(code))?;
        let command = Command::ExecutionException {
            error_code: Some(code),
            command_id: Some(self.serial()),
            class_code: Some(self.class),
            command_code: Some(self.code),
            field_index: Some(0),
            description: Some(description),
            error_info: None,
        };
        Ok(Unit::Command {
            sync: false,
            command,
            content: None,
        })
    }

    /// A result.
    fn result(self, alloc: Global, value: &ResultValue) -> Result<Unit, NoMemory>
        requires { result_fine value.now ≡ true }
        ensures { IfOk result (λ made. made ≡ result_unit self value.now) }
    {
        let value = write_result(alloc, value)?;
        let command = Command::ExecutionResult {
            command_id: Some(self.serial()),
            value: Some(value),
        };
        Ok(Unit::Command {
            sync: false,
            command,
            content: None,
        })
    }

    /// An exception, with which the session fails.
    pub(crate) fn refused(self, alloc: Global, code: u16) -> Result<Plan, NoMemory>
        ensures { IfOk result (λ plan. plan ≡ refused self code) }
    {
        let session = self.session;
        let mut plan = Plan::only(alloc, Edit::Fail { session })?;
        plan.give(session, self.exception(alloc, code)?)?;
        Ok(plan)
    }

    /// What is done where something stops the command.
    pub(crate) fn stopped(self, alloc: Global, stop: Stop) -> Result<Plan, NoMemory>
        ensures { IfOk result (λ plan. plan ≡ stopped self stop) }
    {
        match stop {
            Stop::Skip => Ok(Plan::nothing(alloc)),
            Stop::Refuse(code) => self.refused(alloc, code),
        }
    }

    /// A result alone.
    pub(crate) fn answered(self, alloc: Global, value: &ResultValue) -> Result<Plan, NoMemory>
        requires { result_fine value.now ≡ true }
        ensures { IfOk result (λ plan. plan ≡ answered self value.now) }
    {
        let mut plan = Plan::nothing(alloc);
        plan.give(self.session, self.result(alloc, value)?)?;
        Ok(plan)
    }
}

/// The name of an error code that the broker gives (AMQP 0-10, "execution.error-code").
fn error_name(code: u16) -> &'static str
    ensures { result.now ≡ error_name code }
{
    match code {
        404 => "not-found",
        405 => "resource-locked",
        406 => "precondition-failed",
        409 => "illegal-state",
        503 => "command-invalid",
        506 => "resource-limit-exceeded",
        530 => "not-allowed",
        531 => "illegal-argument",
        540 => "not-implemented",
        541 => "internal-error",
        _ => "invalid-argument",
    }
}

/// Whether a name is empty.
pub(crate) fn is_empty(name: &Text) -> bool
    ensures { result ≡ is_empty name.now }
{
    name.as_slice().is_empty()
}

/// Whether a name begins with `amq.`, as those of the broker's own exchanges do.
pub(crate) fn is_reserved(name: &Text) -> bool
    ensures { result ≡ is_reserved name.now }
{
    name.as_slice().starts_with(b"amq.")
}

/// A field, or the empty text where it is absent.
pub(crate) fn or_empty<'a>(field: &'a Option<Text>, empty: &'a Text) -> &'a Text
    requires { empty.now ≡ [] }
    ensures { result.now ≡ or_empty field.now }
{
    match field {
        Some(name) => name,
        None => empty,
    }
}

/// A copy of arguments.
pub(crate) fn copied(alloc: Global, arguments: &Option<Value>) -> Result<Option<Value>, NoMemory>
    ensures { IfOk result (λ copy. copy ≡ arguments.now) }
{
    match arguments {
        Some(value) => Ok(Some(value.copied(alloc)?)),
        None => Ok(None),
    }
}
