// A PID as a host in another language gives it: a number of 32 bits, or a word of a filter.
ghost use Rattle.std.specs.Prelude.{◌≡◌};
ghost use Rattle.host_words.specs.Pids.{pid_number, maybe_pid};

// No number above 65,535 becomes a small one: it is handed on as 65,535, which is no PID either.
pub fn narrow(pid: u64) -> u16
    ensures { result ≡ pid_number pid }
{
    if pid < 65535 { pid as u16 } else { 65535 }
}

pub fn number(pid: u32) -> u16
    ensures { result ≡ pid_number pid }
{
    narrow(pid as u64)
}

// The largest number stands for "no PID".
pub fn maybe(pid: u32) -> Option<u16>
    ensures { result ≡ maybe_pid pid }
{
    if pid == 0xFFFF_FFFF {
        None
    } else {
        Some(number(pid))
    }
}
