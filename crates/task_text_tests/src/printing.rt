//! Programs as they are printed, and read again.
use ease_base::Text;
use std::alloc::Global;
use std::process::Abort;
use std::test::Fail;
use task_print::print_program;
use task_text::read_program;

#[test]
fn a_printed_program_has_a_space_between_any_two_tokens(rt: HostRuntime) -> Result<(), Fail> {
    let cases = [
        (
            "task t{if(1)STOP;else STOP;}",
            "task t { if ( 1 ) STOP ; else STOP ; }\n",
        ),
        (
            "peripheral p 0x7;word*q;task t{q=&x;q=&a[1];IO(p,ALWAYS);x=IO(p,TIMELY(0x10),a[1],-x);STOP;}",
            "peripheral p 7 ; word * q ; task t { q = & x ; q = & a [ 1 ] ; IO ( p , ALWAYS ) ; x = IO ( p , TIMELY ( 16 ) , a [ 1 ] , - x ) ; STOP ; }\n",
        ),
        (
            "task t{IO_BLOCK(SINGLE){a[0]=IO(p,SINGLE,1);}DMA(a,&b[i],8);DMA(&x,p,(2));STOP;}",
            "task t { IO_BLOCK ( SINGLE ) { a [ 0 ] = IO ( p , SINGLE , 1 ) ; } DMA ( a , & b [ i ] , 8 ) ; DMA ( & x , p , ( 2 ) ) ; STOP ; }\n",
        ),
        (
            "nv word x = 4294967295; task a { x = x + 1; STOP; }",
            "nv word x = 4294967295 ; task a { x = x + 1 ; STOP ; }\n",
        ),
        (
            "const nv word g[2]={3,0x1}; word v[1] = {7}; task t{if(v[0]){v[g[1]]=-1;}else{}NEXT(t);}",
            "const nv word g [ 2 ] = { 3 , 1 } ; word v [ 1 ] = 7 ; task t { if ( v [ 0 ] ) { v [ g [ 1 ] ] = - 1 ; } NEXT ( t ) ; }\n",
        ),
        (
            "word i; task t{for(i=0;i<3;i++){i=(i)*2;}if(i){}else{i=0;}STOP;}",
            "word i ; task t { for ( i = 0 ; i < 3 ; i ++ ) { i = ( i ) * 2 ; } if ( i ) { } else { i = 0 ; } STOP ; }\n",
        ),
    ];
    for (text, printed) in cases {
        let Ok(program) = read_program(rt.alloc(), text.as_bytes()) else {
            panic!(&rt; "{text:?} is refused");
        };
        let again = print_program(rt.alloc(), &program)?;
        assert_eq!(&rt; again.as_slice(), printed.as_bytes(), "for {text:?}");
    }
    Ok(())
}

/// What is printed of the program that a text is.
pub fn printed(rt: &impl Abort, alloc: Global, text: &[u8]) -> Result<Text, Fail> {
    assert!(rt; text.len() < 100000);
    let Ok(program) = read_program(alloc, text) else {
        panic!(rt; "{text:?} is refused");
    };
    Ok(print_program(alloc, &program)?)
}

/// A program that senses, filters, scales and sends.
const SENSING: &[u8] = b"peripheral temp 0; peripheral radio 1;
const nv word gain[2] = {3, 1};
nv word samples[8]; nv word mean; nv word sent;
word v; word i; word b[8];
task sense { for (i = 0; i < 8; i++) { b[i] = IO(temp, TIMELY(1000)); }
  DMA(samples, b, 8); NEXT(filter); }
task filter { DMA(b, samples, 8); v = 0;
  for (i = 0; i < 8; i++) { v = v + b[i]; } mean = v / 8; NEXT(scale); }
task scale { DMA(b, gain, 2); mean = mean * b[0] / b[1]; NEXT(send); }
task send { v = IO(radio, SINGLE, mean); sent = sent + 1;
  if (sent < 3) NEXT(sense); else STOP; }
";

/// Its tokens with a space between any two.
const SENSING_PRINTED: &[u8] =
    b"peripheral temp 0 ; peripheral radio 1 ; const nv word gain [ 2 ] = { 3 , 1 } ; nv word samples [ 8 ] ; nv word mean ; nv word sent ; word v ; word i ; word b [ 8 ] ; task sense { for ( i = 0 ; i < 8 ; i ++ ) { b [ i ] = IO ( temp , TIMELY ( 1000 ) ) ; } DMA ( samples , b , 8 ) ; NEXT ( filter ) ; } task filter { DMA ( b , samples , 8 ) ; v = 0 ; for ( i = 0 ; i < 8 ; i ++ ) { v = v + b [ i ] ; } mean = v / 8 ; NEXT ( scale ) ; } task scale { DMA ( b , gain , 2 ) ; mean = mean * b [ 0 ] / b [ 1 ] ; NEXT ( send ) ; } task send { v = IO ( radio , SINGLE , mean ) ; sent = sent + 1 ; if ( sent < 3 ) NEXT ( sense ) ; else STOP ; }\n";

#[test]
fn a_sensing_program_is_printed_by_its_tokens_and_read_again(rt: HostRuntime) -> Result<(), Fail> {
    let alloc = rt.alloc();
    let once = printed(&rt, alloc, SENSING)?;
    assert_eq!(&rt; once.as_slice(), SENSING_PRINTED);
    let twice = printed(&rt, alloc, once.as_slice())?;
    assert_eq!(&rt; twice.as_slice(), SENSING_PRINTED);
    Ok(())
}
