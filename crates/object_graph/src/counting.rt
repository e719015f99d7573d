//! How many objects a region holds, and how many static fields a class has.

ghost use Rattle.std.specs.Prelude.{◌≡◌, ◌<◌, ◌^◌, Some, length};
ghost use Rattle.vm_state.specs.Pools.{held_count, pool_by};
ghost use Rattle.loading.specs.Families.{file_in};
ghost use Rattle.program.specs.Programs.{IsProgram};
ghost use Rattle.program.specs.Tables.{statics_in};

use classfile::ClassFile;
use program::Program;
use vm_state::heap::Pool;

/// How many objects are held, where fewer than 2^32 were made.
pub(crate) fn count_of(objects: &Pool) -> u32
    requires { (pool_by objects.now).count < 2 ^ 32 }
    ensures { result ≡ held_count (pool_by objects.now) }
{
    objects.len() as u32
}

/// How many static fields with values a class has: at most 65,535, and none where there is no such class.
pub fn static_count(program: &Program, class: u32) -> u32
    ensures { result ≡ length (statics_in program.now class) }
{
    let _classes = program.classes();
    match program.family().file(class) {
        Some(file) => declared_count(program, class, file),
        None => 0,
    }
}

/// How many static fields with values a class has whose file is this.
fn declared_count(program: &Program, class: u32, file: &ClassFile) -> u32
    requires program { IsProgram program.now }
    requires file { file_in program.now.family class ≡ Some file.now }
    ensures { result ≡ length (statics_in program.now class) }
{
    let _fields = file.fields();
    program.statics(class).len() as u32
}
