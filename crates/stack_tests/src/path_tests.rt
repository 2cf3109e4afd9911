//! Stacks as `eu-stack` printed them of a hung job, and the paths that its samples have.

use frame_name::{Rules, Words};
use stack_path::{Choice, End, Recursion, first_path, other_path, stack_of};
use stack_text::read_process;
use std::alloc::Global;
use std::process::Abort;

const WAITS_PID: u32 = 27;

const WAITS: &[u8] = b"PID 27 - process\n\
TID 27:\n\
#0  0x00007fc10390c017 __sched_yield - /usr/lib/x86_64-linux-gnu/libc.so.6\n\
\x20   [93ac61ec5a8eb1396f9fbd350e3169a558528a40]@0x7fc10381e000+0xee017\n\
#1  0x00007fc103d721f5 ompi_request_default_wait_all - /usr/lib/x86_64-linux-gnu/libmpi.so.40.30.4\n\
\x20   [2a2f4d8c4f8dc5dcc63f6789a50f3ab49f61e168]@0x7fc103d20000+0x521f4\n\
#2  0x00007fc103db681f PMPI_Waitall - /usr/lib/x86_64-linux-gnu/libmpi.so.40.30.4\n\
\x20   [2a2f4d8c4f8dc5dcc63f6789a50f3ab49f61e168]@0x7fc103d20000+0x9681e\n\
#3  0x000055f5f75f33d8 halo() - /tmp/trial/hangs\n\
\x20   [cf1d4b824c651f519886c341c0845af509e55ae7]@0x55f5f75e6000+0xd3d7\n\
#4  0x000055f5f75f3d7b main - /tmp/trial/hangs\n\
\x20   [cf1d4b824c651f519886c341c0845af509e55ae7]@0x55f5f75e6000+0xdd7a\n\
#5  0x00007fc10384524a __libc_start_call_main - /usr/lib/x86_64-linux-gnu/libc.so.6\n\
\x20   [93ac61ec5a8eb1396f9fbd350e3169a558528a40]@0x7fc10381e000+0x27249\n\
#6  0x00007fc103845305 __libc_start_main@@GLIBC_2.34 - /usr/lib/x86_64-linux-gnu/libc.so.6\n\
\x20   [93ac61ec5a8eb1396f9fbd350e3169a558528a40]@0x7fc10381e000+0x27304\n\
#7  0x000055f5f75f2c91 _start - /tmp/trial/hangs\n\
\x20   [cf1d4b824c651f519886c341c0845af509e55ae7]@0x55f5f75e6000+0xcc90\n\
TID 31:\n\
#0  0x00007fc10391a26f __poll - /usr/lib/x86_64-linux-gnu/libc.so.6\n\
\x20   [93ac61ec5a8eb1396f9fbd350e3169a558528a40]@0x7fc10381e000+0xfc26f\n\
#1  0x00007fc103c469b5 - /usr/lib/x86_64-linux-gnu/libevent_core-2.1.so.7.0.1\n\
\x20   [3378e16ccdd10834f45633d4d30bdc456205505b]@0x7fc103c21000+0x259b4\n\
#2  0x00007fc103c3e225 event_base_loop - /usr/lib/x86_64-linux-gnu/libevent_core-2.1.so.7.0.1\n\
\x20   [3378e16ccdd10834f45633d4d30bdc456205505b]@0x7fc103c21000+0x1d224\n\
#3  0x00007fc10379c9ee - /usr/lib/x86_64-linux-gnu/libopen-pal.so.40.30.2\n\
\x20   [85e46cc75b438761041c473c7aab15698809b6f5]@0x7fc103767000+0x359ed\n\
#4  0x00007fc1038a71f5 start_thread - /usr/lib/x86_64-linux-gnu/libc.so.6\n\
\x20   [93ac61ec5a8eb1396f9fbd350e3169a558528a40]@0x7fc10381e000+0x891f4\n\
#5  0x00007fc1039278ec __clone3 - /usr/lib/x86_64-linux-gnu/libc.so.6\n\
\x20   [93ac61ec5a8eb1396f9fbd350e3169a558528a40]@0x7fc10381e000+0x1098eb\n";

const RELAXES_PID: u32 = 28;

const RELAXES: &[u8] = b"PID 28 - process\n\
TID 28:\n\
#0  0x000055708e6c7317 app::Grid<double, 5>::relax(unsigned long) - /tmp/trial/hangs\n\
\x20   [cf1d4b824c651f519886c341c0845af509e55ae7]@0x55708e6b7000+0x10317\n\
#1  0x000055708e6c432f halo() - /tmp/trial/hangs\n\
\x20   [cf1d4b824c651f519886c341c0845af509e55ae7]@0x55708e6b7000+0xd32e\n\
#2  0x000055708e6c4d7b main - /tmp/trial/hangs\n\
\x20   [cf1d4b824c651f519886c341c0845af509e55ae7]@0x55708e6b7000+0xdd7a\n\
#3  0x00007fbaab84524a __libc_start_call_main - /usr/lib/x86_64-linux-gnu/libc.so.6\n\
\x20   [93ac61ec5a8eb1396f9fbd350e3169a558528a40]@0x7fbaab81e000+0x27249\n\
#4  0x00007fbaab845305 __libc_start_main@@GLIBC_2.34 - /usr/lib/x86_64-linux-gnu/libc.so.6\n\
\x20   [93ac61ec5a8eb1396f9fbd350e3169a558528a40]@0x7fbaab81e000+0x27304\n\
#5  0x000055708e6c3c91 _start - /tmp/trial/hangs\n\
\x20   [cf1d4b824c651f519886c341c0845af509e55ae7]@0x55708e6b7000+0xcc90\n\
TID 30:\n\
#0  0x00007fbaab91a26f __poll - /usr/lib/x86_64-linux-gnu/libc.so.6\n\
\x20   [93ac61ec5a8eb1396f9fbd350e3169a558528a40]@0x7fbaab81e000+0xfc26f\n\
#1  0x00007fbaabc619b5 - /usr/lib/x86_64-linux-gnu/libevent_core-2.1.so.7.0.1\n\
\x20   [3378e16ccdd10834f45633d4d30bdc456205505b]@0x7fbaabc3c000+0x259b4\n\
#2  0x00007fbaabc59225 event_base_loop - /usr/lib/x86_64-linux-gnu/libevent_core-2.1.so.7.0.1\n\
\x20   [3378e16ccdd10834f45633d4d30bdc456205505b]@0x7fbaabc3c000+0x1d224\n\
#3  0x00007fbaab79c9ee - /usr/lib/x86_64-linux-gnu/libopen-pal.so.40.30.2\n\
\x20   [85e46cc75b438761041c473c7aab15698809b6f5]@0x7fbaab767000+0x359ed\n\
#4  0x00007fbaab8a71f5 start_thread - /usr/lib/x86_64-linux-gnu/libc.so.6\n\
\x20   [93ac61ec5a8eb1396f9fbd350e3169a558528a40]@0x7fbaab81e000+0x891f4\n\
#5  0x00007fbaab9278ec __clone3 - /usr/lib/x86_64-linux-gnu/libc.so.6\n\
\x20   [93ac61ec5a8eb1396f9fbd350e3169a558528a40]@0x7fbaab81e000+0x1098eb\n";

fn usual() -> Choice {
    Choice {
        end: End::Calls(Words::none()),
        recursion: Recursion::Cycles,
    }
}

// The text of the first thread's path, and whether another thread runs the program's own code.
fn path_of(rt: &impl Abort, alloc: Global, pid: u32, text: &[u8]) -> (Vec<u8>, bool) {
    let process = read_process(alloc, pid, text).expect(rt, "memory");
    assert!(rt; !process.is_odd);
    assert!(rt; process.threads.len() == 2);
    let rules = Rules {
        own: Words::none(),
        keeps_lines: false,
    };
    let first = stack_of(alloc, &rules, process.threads[0].1.calls.as_slice()).expect(rt, "memory");
    let other = stack_of(alloc, &rules, process.threads[1].1.calls.as_slice()).expect(rt, "memory");
    let runs_elsewhere = other_path(alloc, &usual(), other.as_slice())
        .expect(rt, "memory")
        .is_some();
    let found = first_path(alloc, &usual(), first.as_slice()).expect(rt, "memory");
    assert!(rt; !found.is_long && !found.is_deep);
    let mut out = Vec::new(alloc);
    found.path.write_text(&mut out).expect(rt, "memory");
    (out, runs_elsewhere)
}

#[test]
fn a_rank_that_waits(rt: HostRuntime) {
    let (path, runs_elsewhere) = path_of(&rt, rt.alloc(), WAITS_PID, WAITS);
    assert!(rt; path.as_slice() == b"main;halo();MPI_Waitall".as_slice());
    assert!(rt; !runs_elsewhere);
}

#[test]
fn a_rank_that_computes(rt: HostRuntime) {
    let (path, runs_elsewhere) = path_of(&rt, rt.alloc(), RELAXES_PID, RELAXES);
    assert!(rt;
        path.as_slice() == b"main;halo();app::Grid<double, 5>::relax(unsigned long)".as_slice()
    );
    assert!(rt; !runs_elsewhere);
}
