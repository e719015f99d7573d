//! Instructions on objects, once what they name is looked up.

ghost use Rattle.std.specs.Prelude.{◌≡◌};
ghost use Rattle.machine.specs.ObjectReferences.{named_class, new_built_in, new_class, new_of, check_cast_of};
ghost use Rattle.machine.specs.ObjectReferences.{instance_test_of, instance_field, named_instance_field};
ghost use Rattle.machine.specs.ObjectReferences.{get_field_of, put_field_of};

use built_in::class_id::{BuiltIn, ClassId};
use program::runtime_constant::{FieldKind, FieldTarget, RuntimeConstant};
use program::{Program, Unresolved};
use vm_state::ends::FaultKind;

/// A field of instances.
#[derive(Clone, Copy)]
pub struct InstanceField {
    /// The number of the given class that declares it.
    pub class: u32,
    /// Its place among the slots of objects of the class and of those below it.
    pub slot: u32,
    pub kind: FieldKind,
}

/// An instruction on objects (JVMS 6.5).
#[derive(Clone, Copy)]
pub enum ObjectOperation {
    /// `new` of a given class, by its number.
    NewGiven(u32),
    /// `new` of a built-in class.
    NewBuiltIn(BuiltIn),
    /// `checkcast`.
    CheckCast(ClassId),
    /// `instanceof`.
    InstanceOf(ClassId),
    /// `athrow`.
    Throw,
    /// `getfield`.
    GetField(InstanceField),
    /// `putfield`.
    PutField(InstanceField),
    /// `monitorenter`.
    EnterMonitor,
    /// `monitorexit`.
    ExitMonitor,
}

/// The class that a constant of the run-time constant pool stands for.
///
/// # Errors
/// `Fault` where it is no class, `Missing` where none is given or built in by its name.
fn named_class(constant: Option<RuntimeConstant>) -> Result<ClassId, FaultKind>
    ensures { result ≡ named_class constant }
{
    match constant {
        Some(RuntimeConstant::Class(Some(class))) => Ok(class),
        Some(RuntimeConstant::Class(None)) => Err(FaultKind::Missing),
        _ => Err(FaultKind::Fault),
    }
}

fn new_built_in(class: BuiltIn) -> Result<ObjectOperation, FaultKind>
    ensures { result ≡ new_built_in class }
{
    match class {
        BuiltIn::Enum => Err(FaultKind::Fault),
        BuiltIn::String | BuiltIn::System | BuiltIn::PrintStream => Err(FaultKind::Unsupported),
        _ => Ok(ObjectOperation::NewBuiltIn(class)),
    }
}

fn new_class(program: &Program, class: ClassId) -> Result<ObjectOperation, FaultKind>
    ensures { result ≡ new_class program.now class }
{
    match class {
        ClassId::Given(number) if program.is_instantiable(number) => Ok(ObjectOperation::NewGiven(
            number,
        )),
        ClassId::BuiltIn(class) => new_built_in(class),
        ClassId::Given(_) | ClassId::Array(_) => Err(FaultKind::Fault),
    }
}

/// `new` of a constant of the run-time constant pool.
///
/// # Errors
/// The fault that it is, whatever its frame holds.
pub fn new_of(
    program: &Program,
    constant: Option<RuntimeConstant>,
) -> Result<ObjectOperation, FaultKind>
    ensures { result ≡ new_of program.now constant }
{
    new_class(program, named_class(constant)?)
}

/// `checkcast` to a constant of the run-time constant pool.
///
/// # Errors
/// The fault that it is, whatever its frame holds.
pub fn check_cast_of(constant: Option<RuntimeConstant>) -> Result<ObjectOperation, FaultKind>
    ensures { result ≡ check_cast_of constant }
{
    Ok(ObjectOperation::CheckCast(named_class(constant)?))
}

/// `instanceof` of a constant of the run-time constant pool.
///
/// # Errors
/// The fault that it is, whatever its frame holds.
pub fn instance_test_of(constant: Option<RuntimeConstant>) -> Result<ObjectOperation, FaultKind>
    ensures { result ≡ instance_test_of constant }
{
    Ok(ObjectOperation::InstanceOf(named_class(constant)?))
}

fn instance_field(
    kind: FieldKind,
    target: Result<FieldTarget, Unresolved>,
) -> Result<InstanceField, FaultKind>
    ensures { result ≡ instance_field kind target }
{
    match target {
        Ok(FieldTarget::Instance { class, slot, .. }) => Ok(InstanceField { class, slot, kind }),
        Ok(FieldTarget::Static { .. }) | Ok(FieldTarget::Out) => Err(FaultKind::Fault),
        Err(Unresolved::Missing) => Err(FaultKind::Missing),
        Err(Unresolved::NoReference) | Err(Unresolved::Incompatible) => Err(FaultKind::Fault),
    }
}

/// The field of instances that a constant of the run-time constant pool stands for.
///
/// # Errors
/// `Fault` where it is no field or a static one, `Missing` where it resolves to nothing, and `Unsupported` of a field
/// of type float or double.
fn named_instance_field(constant: Option<RuntimeConstant>) -> Result<InstanceField, FaultKind>
    ensures { result ≡ named_instance_field constant }
{
    match constant {
        Some(RuntimeConstant::Field(FieldKind::Float, _)) => Err(FaultKind::Unsupported),
        Some(RuntimeConstant::Field(FieldKind::Double, _)) => Err(FaultKind::Unsupported),
        Some(RuntimeConstant::Field(kind, target)) => instance_field(kind, target),
        _ => Err(FaultKind::Fault),
    }
}

/// `getfield` of a constant of the run-time constant pool.
///
/// # Errors
/// The fault that it is, whatever its frame holds.
pub fn get_field_of(constant: Option<RuntimeConstant>) -> Result<ObjectOperation, FaultKind>
    ensures { result ≡ get_field_of constant }
{
    Ok(ObjectOperation::GetField(named_instance_field(constant)?))
}

/// `putfield` of a constant of the run-time constant pool.
///
/// # Errors
/// The fault that it is, whatever its frame holds.
pub fn put_field_of(constant: Option<RuntimeConstant>) -> Result<ObjectOperation, FaultKind>
    ensures { result ≡ put_field_of constant }
{
    Ok(ObjectOperation::PutField(named_instance_field(constant)?))
}
