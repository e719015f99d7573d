//! Calls that make images, write and read them.

ghost use Rattle.std.specs.Prelude.{◌≡◌, IfOk};
ghost use Rattle.image_format.specs.Images.{AreShort};
ghost use Rattle.report.specs.Waves.{GiveWaves};

use super::page::Page;
use super::programs::linked;
use crate::streams::OneByOne;
use building::{BuildFault, BuildOptions, Built, build_program, build_program_here};
use classfile::ClassName;
use cli::entries_of;
use image_reader::{into_world, read, world};
use image_writer::{WriteFault, write};
use object_graph::{Image, reachable};
use report::render;
use sinks::Out;
use std::alloc::{AllocError, Global};
use std::io::Write;
use std::sync::Wait;
use std::thread::Threads;
use wave_scheduler::Open;

/// How many workers build.
const WORKERS: u32 = 3;

/// What is asked of the builds.
fn options() -> BuildOptions<'static>
    ensures { result.budget ≡ 1000 }
{
    BuildOptions {
        run_time: Some("Uses"),
        build_time: Some("W"),
        budget: 1_000,
    }
}

/// Makes a call twice over the same things lent.
pub fn call<R: Threads + Wait + Sync, W: Write>(
    rt: &R,
    page: &mut Page<'_, W>,
    name: &str,
    files: &[Vec<u8>],
    images: &[Vec<u8>],
) {
    match name {
        "build_program_here" | "build_program" => {
            build(rt, page, name, files);
            build(rt, page, name, files);
        }
        "render" => match built_of(page.alloc, files) {
            Ok(built) => render_twice(page, &built),
            Err(_) => page.give_up(),
        },
        _ => match images.first() {
            Some(all) => of_image(page, name, all),
            None => page.give_up(),
        },
    }
}

/// Builds on this thread, or by workers.
fn build<R: Threads + Wait + Sync, W: Write>(
    rt: &R,
    page: &mut Page<'_, W>,
    name: &str,
    files: &[Vec<u8>],
) {
    let Some(program) = linked(page.alloc, files) else {
        return page.give_up();
    };
    page.ask(name);
    let answer = if name == "build_program" {
        build_program(rt, page.alloc, program, &options(), WORKERS, &Open)
    } else {
        build_program_here(page.alloc, program, &options())
    };
    match answer {
        Ok(built) => page.value(objects_in(&built.image)),
        Err(BuildFault::Memory) => page.memory(),
        Err(_) => page.line(&"another fault"),
    }
}

/// How many objects an image has.
fn objects_in(image: &Image) -> usize {
    let mut count = 0usize;
    for class in 0..image.program().given_count() {
        count = count.saturating_add(image.object_count(class) as usize);
    }
    count
}

/// What is built of classes.
fn built_of(alloc: Global, files: &[Vec<u8>]) -> Result<Built, AllocError>
    ensures { IfOk result (λ built. GiveWaves built.image built.verdicts) }
{
    let Some(program) = linked(alloc, files) else {
        return Err(AllocError);
    };
    match build_program_here(alloc, program, &options()) {
        Ok(built) => Ok(built),
        Err(_) => Err(AllocError),
    }
}

/// Renders the report of a build twice.
fn render_twice<W: Write>(page: &mut Page<'_, W>, built: &Built)
    requires { GiveWaves built.now.image built.now.verdicts }
{
    let Some(text) = report_of(page.alloc, built) else {
        return page.give_up();
    };
    render_again(page, built, &text);
    render_again(page, built, &text);
}

/// The report of a build.
fn report_of(alloc: Global, built: &Built) -> Option<Vec<u8>>
    requires { GiveWaves built.now.image built.now.verdicts }
{
    let mut bytes = Out::new(Vec::new(alloc));
    match render(alloc, &built.image, &built.verdicts, &mut bytes) {
        Ok(()) => Some(bytes.into_inner()),
        Err(_) => None,
    }
}

fn render_again<W: Write>(page: &mut Page<'_, W>, built: &Built, text: &[u8])
    requires { GiveWaves built.now.image built.now.verdicts }
{
    let mut out = Out::new(OneByOne::failing(text, text.len()));
    page.ask("render");
    let answer = render(page.alloc, &built.image, &built.verdicts, &mut out);
    tell_sent(page, answer, &out.into_inner())
}

/// Tells what a write answered, of which nothing more went out where memory was refused.
fn tell_sent<W: Write>(
    page: &mut Page<'_, W>,
    answer: Result<(), WriteFault>,
    stream: &OneByOne<'_>,
) {
    match answer {
        Ok(()) if stream.is_full() => page.value(stream.taken),
        Err(WriteFault::Memory { sent }) if stream.has(sent as u128) => page.memory(),
        _ => page.line(&"another fault, or other bytes"),
    }
}

/// Makes a call twice on an image, or on its bytes.
fn of_image<W: Write>(page: &mut Page<'_, W>, name: &str, bytes: &[u8]) {
    match read(page.alloc, bytes) {
        Ok(image) => of_read(page, name, &image, bytes),
        Err(_) => page.give_up(),
    }
}

fn of_read<W: Write>(page: &mut Page<'_, W>, name: &str, image: &Image, bytes: &[u8])
    requires { AreShort image.now.program.family }
{
    let Ok(entries) = entries_of(page.alloc, "Main,Work") else {
        return page.give_up();
    };
    make(page, name, image, bytes, &entries);
    make(page, name, image, bytes, &entries);
}

fn make<W: Write>(
    page: &mut Page<'_, W>,
    name: &str,
    image: &Image,
    bytes: &[u8],
    entries: &[ClassName],
)
    requires { AreShort image.now.program.family }
{
    match name {
        "image_writer::write" => write_image(page, image, bytes),
        "image_reader::read" => read_image(page, bytes),
        "world" => start_at(page, image, entries),
        "into_world" => start_from(page, bytes, entries),
        "reachable" => reach_all(page, image),
        _ => page.give_up(),
    }
}

fn read_image<W: Write>(page: &mut Page<'_, W>, bytes: &[u8]) {
    page.ask("image_reader::read");
    match read(page.alloc, bytes) {
        Ok(image) => page.value(objects_in(&image)),
        Err(fault) => page.line(&fault),
    }
}

fn write_image<W: Write>(page: &mut Page<'_, W>, image: &Image, bytes: &[u8])
    requires { AreShort image.now.program.family }
{
    let mut out = Out::new(OneByOne::failing(bytes, bytes.len()));
    page.ask("image_writer::write");
    let answer = write(page.alloc, image, &mut out);
    tell_sent(page, answer, &out.into_inner())
}

fn start_at<W: Write>(page: &mut Page<'_, W>, image: &Image, entries: &[ClassName]) {
    page.ask("world");
    match world(page.alloc, image, entries) {
        Ok(start) => page.value(start.thread_count() as usize),
        Err(fault) => page.line(&fault),
    }
}

fn start_from<W: Write>(page: &mut Page<'_, W>, bytes: &[u8], entries: &[ClassName]) {
    match read(page.alloc, bytes) {
        Ok(image) => start_by_moving(page, image, entries),
        Err(_) => page.give_up(),
    }
}

fn start_by_moving<W: Write>(page: &mut Page<'_, W>, image: Image, entries: &[ClassName]) {
    page.ask("into_world");
    match into_world(page.alloc, image, entries) {
        Ok((_, start)) => page.value(start.thread_count() as usize),
        Err(fault) => page.line(&fault),
    }
}

fn reach_all<W: Write>(page: &mut Page<'_, W>, image: &Image) {
    page.ask("reachable");
    match reachable(page.alloc, image) {
        Ok(names) => page.value(names.len()),
        Err(_) => page.memory(),
    }
}
