//! Programs with the accounts of their sites, worked out by hand.
ghost use Rattle.std.specs.Prelude.{◌<◌, length};

use ease_base::{NoMemory, Text};
use site_account::account_text;
use std::alloc::Global;
use std::test::Fail;
use task_check::check;
use task_text::read_program;

const ACCOUNTS: [(&str, &str); 6] = [
    (
        "peripheral temp 0; peripheral radio 1; peripheral log 2; word v;
task a {
  v = IO(temp, TIMELY(1000));
  IO(radio, SINGLE, v);
  IO(log, SINGLE, v);
  STOP;
}
",
        "task 1 a
site 1 3:7 io temp timely 1000 forces 2 3
site 2 4:3 io radio single
site 3 5:3 io log single
regions 1
end
",
    ),
    (
        "peripheral temp 0; nv word n; word v;
task a {
  IO_BLOCK(SINGLE) { v = IO(temp, ALWAYS); }
  n = v; STOP;
}
",
        "task 1 a
site 1 3:3 block single members 2
site 2 3:26 io temp always
regions 1
first 0 n
end
",
    ),
    (
        "peripheral temp 0; peripheral radio 1;
const nv word gain[2] = {3, 1};
nv word samples[8]; nv word mean; nv word sent;
word v; word i; word b[8];
task sense { for (i = 0; i < 8; i++) { b[i] = IO(temp, TIMELY(1000)); }
  DMA(samples, b, 8); NEXT(filter); }
task filter { DMA(b, samples, 8); v = 0;
  for (i = 0; i < 8; i++) { v = v + b[i]; } mean = v / 8; NEXT(scale); }
task scale { DMA(b, gain, 2); mean = mean * b[0] / b[1]; NEXT(send); }
task send { v = IO(radio, SINGLE, mean); sent = sent + 1;
  if (sent < 3) NEXT(sense); else STOP; }
",
        "task 1 sense
site 1 5:47 io temp timely 1000 forces 9
site 2 5:47 io temp timely 1000 forces 9
site 3 5:47 io temp timely 1000 forces 9
site 4 5:47 io temp timely 1000 forces 9
site 5 5:47 io temp timely 1000 forces 9
site 6 5:47 io temp timely 1000 forces 9
site 7 5:47 io temp timely 1000 forces 9
site 8 5:47 io temp timely 1000 forces 9
site 9 6:3 copy to samples from b greatest 8
regions 2
first 1 samples
task 2 filter
site 1 7:15 copy to b from samples greatest 8
regions 2
first 1 mean
task 3 scale
site 1 9:14 copy to b from gain greatest 2
regions 2
first 1 mean
task 4 send
site 1 10:17 io radio single
regions 1
first 0 sent
end
",
    ),
    (
        "peripheral temp 0; peripheral radio 1; word v; word i;
task t {
  for (i = 0; i < 2; i++) {
    IO_BLOCK(TIMELY(5)) {
      v = IO(temp, SINGLE);
      IO_BLOCK(ALWAYS) { IO(radio, SINGLE, v); }
    }
  }
  IO(radio, SINGLE, i);
  STOP;
}
",
        "task 1 t
site 1 4:5 block timely 5 members 2 3 4
site 2 5:11 io temp single forces 3 4 5 7 8
site 3 6:7 block always members 4
site 4 6:26 io radio single
site 5 4:5 block timely 5 members 6 7 8
site 6 5:11 io temp single forces 7 8
site 7 6:7 block always members 8
site 8 6:26 io radio single
site 9 9:3 io radio single
regions 1
end
",
    ),
    (
        "nv word x; task a { x = 1; NEXT(b); } task b { STOP; }",
        "task 1 a
regions 1
first 0 x
task 2 b
regions 1
end
",
    ),
    (
        "nv word n; nv word a[2]; nv word c[2]; word b[4]; word *p; word *q; word i; peripheral temp 0;
task t {
  if (n == 0) { p = &b[0]; } else { p = &c[0]; }
  DMA(p, a, 2);
  DMA(q, p, 2);
  IO_BLOCK(ALWAYS) { }
  for (i = 0; i < 0; i++) { n = IO(temp, SINGLE); }
  STOP;
}
",
        "task 1 t
site 1 4:3 copy to c b from a greatest 2
site 2 5:3 copy to from c b greatest 0
site 3 6:3 block always members
regions 3
first 1 c
end
",
    ),
];

// The account of a text's program; None where the text is refused.
fn account_of(alloc: Global, text: &[u8]) -> Result<Option<Text>, NoMemory>
    requires { length text.now < 10000 }
{
    let Ok(program) = read_program(alloc, text) else {
        return Ok(None);
    };
    let Ok(core) = check(alloc, &program) else {
        return Ok(None);
    };
    Ok(Some(account_text(alloc, &core, &program)?))
}

#[test]
fn each_program_has_its_account(rt: HostRuntime) -> Result<(), Fail> {
    for (source, expected) in ACCOUNTS {
        if source.len() < 10000 {
            let account = account_of(rt.alloc(), source.as_bytes())?;
            let text = match &account {
                Some(text) => text.as_slice(),
                None => b"refused",
            };
            assert_eq!(rt; text, expected.as_bytes(), "for {source:?}");
        }
    }
    Ok(())
}
