// What no clause says: the words of a line, what comes of a stream that is slow or fails, and arguments.
ghost use Rattle.std.specs.Prelude.{◌≤◌, IfOk};

use super::*;

// Moves three octets a call, with an interruption before each, and fails once it has moved `most`.
#[derive(Drop)]
struct Slow {
    octets: Vec<u8>,
    moved: usize,
    most: usize,
    is_interrupted: bool,
}

impl Slow {
    fn new(octets: Vec<u8>, most: usize) -> Slow {
        Slow {
            octets,
            moved: 0,
            most,
            is_interrupted: false,
        }
    }

    // How many octets the next call moves.
    fn step(&mut self, room: usize) -> io::Result<usize>
        ensures { IfOk result (λ n. n ≤ room) }
    {
        self.is_interrupted = !self.is_interrupted;
        if self.is_interrupted {
            return Err(Error::from(ErrorKind::Interrupted));
        }
        if self.moved >= self.most {
            return Err(Error::from_raw_os_error(28));
        }
        let n = room.min(3);
        self.moved = self.moved.saturating_add(n);
        Ok(n)
    }
}

impl Write for Slow {
    fn write(&mut self, buf: &[u8]) -> io::Result<usize> {
        let n = self.step(buf.len())?;
        self.octets.extend_from_slice(&buf[..n])?;
        Ok(n)
    }

    fn flush(&mut self) -> io::Result<()> {
        Ok(())
    }
}

impl Read for Slow {
    fn read(&mut self, buf: &mut [u8]) -> io::Result<usize> {
        let n = self.step(buf.len())?;
        for x in buf.iter_mut() {
            *x = b'x';
        }
        Ok(n)
    }
}

#[test]
fn writes_up_to_a_failure(rt: HostRuntime) -> io::Result<()> {
    for (most, want) in [(0, 0), (4, 6), (6, 6), (100, 9)] {
        let mut slow = Slow::new(Vec::new(rt.alloc()), most);
        let written = write_octets(&mut slow, &b"123456789abc"[..9]);
        assert_eq!(rt; slow.octets.as_slice(), &b"123456789"[..want]);
        match written {
            Ok(()) => assert_eq!(rt; want, 9),
            Err(failure) => assert_eq!(rt; failure.error.raw_os_error(), Some(28)),
        }
    }
    Ok(())
}

// The error of the call that failed.
fn io_result<T>(called: Result<T, Failure>) -> io::Result<T> {
    called.map_err(|failure| failure.error)
}

#[test]
fn reads_up_to_a_failure(rt: HostRuntime) -> io::Result<()> {
    let mut slow = Slow::new(Vec::new(rt.alloc()), 5);
    let mut input = [0; 9];
    for want in [3, 3] {
        assert_eq!(rt; io_result(read_piece(&mut slow, &mut input))?, want);
    }
    match read_piece(&mut slow, &mut input) {
        Ok(_) => assert!(rt; false),
        Err(failure) => assert_eq!(rt; failure.error.raw_os_error(), Some(28)),
    }
    let mut octets: &[u8] = b"12";
    assert_eq!(rt; io_result(read_piece(&mut octets, &mut input))?, 2);
    assert_eq!(rt; io_result(read_piece(&mut octets, &mut input))?, 0);
    Ok(())
}

#[test]
fn tells_and_prints(rt: HostRuntime) -> io::Result<()> {
    let mut told = Vec::new(rt.alloc());
    for (call, error) in [
        (Call::Write, Error::from_raw_os_error(28)),
        (Call::Read, Error::from_raw_os_error(21)),
        (Call::Close, Error::from(ErrorKind::TimedOut)),
    ] {
        io_result(tell_failure(&mut told, b"p", call.word(), &error))?;
    }
    io_result(print_line(&mut told, b"usage: ", b"p", b" < FILE\n"))?;
    io_result(close_output(&mut told))?;
    let want = "p: write failed (errno 28): No space left on device\n\
        p: read failed (errno 21): Is a directory\n\
        p: close failed (errno 0): timed out\n\
        usage: p < FILE\n";
    assert_eq!(rt; told.as_slice(), want.as_bytes());
    Ok(())
}

// A program with one argument.
#[derive(Drop)]
struct Only<'a>(&'a str);

impl Env for Only<'_> {
    fn arg(&self, i: usize, buf: &mut [u8]) -> Result<usize, FillError> {
        let word = self.0.as_bytes();
        if i != 1 {
            return Err(FillError::NotPresent);
        }
        if word.len() > buf.len() {
            return Err(FillError::TooLong);
        }
        let n = word.len();
        buf[..n].copy_from_slice(word);
        Ok(n)
    }

    fn var(&self, _name: &str, _buf: &mut [u8]) -> Result<usize, FillError> {
        Err(FillError::NotPresent)
    }

    fn var_at(&self, _i: usize, _buf: &mut [u8]) -> Result<usize, FillError> {
        Err(FillError::NotPresent)
    }
}

#[test]
fn knows_its_arguments(rt: HostRuntime) {
    for (word, want) in [
        ("--help", true),
        ("", false),
        ("--hel", false),
        ("--helpx", false),
    ] {
        let env = Only(word);
        assert_eq!(rt; is_argument(&env, b"--help"), want, "at {word}");
        assert!(rt; has_argument(&env, 1) && !has_argument(&env, 2));
    }
}
