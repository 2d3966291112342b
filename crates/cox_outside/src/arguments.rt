//! The arguments of a program, as texts.

ghost use Rattle.std.specs.Prelude.{◌≡◌, [], map, take, IfOk, IsOk};
ghost use Rattle.std.specs.String.{string_bytes};

use std::alloc::{AllocError, Global};
use std::env::FillError;
use std::rt::Env;
use std::{env, io};

/// An environment in which the program has this name. The name that a program was called by is no
/// argument, and need be no text.
#[derive(Clone, Copy)]
struct Named<'a, R> {
    inner: &'a R,
    name: &'a [u8],
}

impl<R: Env> Env for Named<'_, R> {
    ghost use Rattle.std.specs.Io.{WritesAtMost};

    /// The name at 0, whatever the program was called; else as the environment says.
    fn arg(&self, i: usize, buf: &mut [u8]) -> Result<usize, FillError>
        ensures bound { WritesAtMost result buf.new }
        ensures name { i ≡ 0 → IfOk result (λ count. take count buf.new ≡ self.now.name.now) }
    {
        if i > 0 {
            return self.inner.arg(i, buf);
        }
        let name = self.name;
        if buf.len() < name.len() {
            return Err(FillError::TooLong);
        }
        buf[..name.len()].copy_from_slice(name);
        Ok(name.len())
    }

    fn var(&self, name: &str, buf: &mut [u8]) -> Result<usize, FillError> {
        self.inner.var(name, buf)
    }

    fn var_at(&self, i: usize, buf: &mut [u8]) -> Result<usize, FillError> {
        self.inner.var_at(i, buf)
    }

    fn current_dir(&self, buf: &mut [u8]) -> io::Result<usize> {
        self.inner.current_dir(buf)
    }

    fn set_current_dir(&self, path: &str) -> io::Result<()> {
        self.inner.set_current_dir(path)
    }
}

/// The arguments of this environment: first this name, whatever the program was called by, then the
/// others as they are. `None` where one of those is no text.
pub fn arguments_of<R: Env>(
    env: &R,
    alloc: Global,
    name: &str,
) -> Result<Option<Vec<String>>, AllocError> {
    let named = Named {
        inner: env,
        name: name.as_bytes(),
    };
    match env::args(&(named, alloc)) {
        Ok(arguments) => Ok(Some(arguments.collect::<Vec<String>>(alloc)?)),
        Err(error) if error.kind() == io::ErrorKind::OutOfMemory => Err(AllocError),
        Err(_) => Ok(None),
    }
}

/// The texts of arguments: of each one, in order. An empty list takes no memory, so of no arguments it never fails.
pub fn texts(alloc: Global, arguments: &[String]) -> Result<Vec<&str>, AllocError>
    ensures none { arguments.now ≡ [] → IsOk result }
    ensures each { IfOk result (λ texts. map (λ text. text.now) texts.items ≡ map string_bytes arguments.now) }
{
    let mut texts = Vec::new(alloc);
    for argument in arguments {
        texts.push(argument.as_str())?;
    }
    Ok(texts)
}
