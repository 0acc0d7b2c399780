use super::checks::{is, put, same, source_of, status_of};
use super::rows::{FIRST, Row, expect_rows};
use lab_top::{LabStatus, VecSink};
use std::process::Abort;
use std::str;
use std::test::*;
use std::thread::Threads;

// The pictures in this file were computed by `tools/pictures.py`.

// The picture of the script of the first page.
const FIRST_DRAWN: &str =
    "<svg xmlns='http://www.w3.org/2000/svg' font-family='monospace' font-size='12' width='728' \
    height='204'><defs><marker id='head' markerWidth='7' markerHeight='6' refX='6' refY='3' orient='auto'><path \
    d='M0 0L7 3L0 6z'></path>\n\
    </marker>\n\
    <circle id='publish' r='6'></circle>\n\
    <path id='withdraw' d='M0 -7L7 0L0 7L-7 0z'></path>\n\
    <path id='timer' d='M-7 -6L7 -6L0 7z'></path>\n\
    <path id='restart' d='M-6 -6L6 6M-6 6L6 -6' stroke='#000' stroke-width='3'></path>\n\
    <path id='command' d='M-6 -6H6V6H-6z' fill='#fff' stroke='#000' stroke-width='2'></path>\n\
    <path id='fetch' d='M-10 -4H10V4H-10z' fill='#555'></path>\n\
    <path id='loop' d='M0 -6H24V6H2' fill='none' stroke='#000' marker-end='url(#head)'></path>\n\
    </defs>\n\
    <rect fill='#fff' width='728' height='204'></rect>\n\
    <line stroke='#777' stroke-width='1.5' x1='464' y1='46' x2='464' y2='130'></line>\n\
    <line stroke='#777' stroke-width='1.5' x1='592' y1='46' x2='592' y2='130'></line>\n\
    <text text-anchor='middle' font-weight='bold' x='464' y='34'>alice</text>\n\
    <text text-anchor='middle' font-weight='bold' x='592' y='34'>bob</text>\n\
    <line stroke='#ddd' x1='56' y1='102' x2='656' y2='102'></line>\n\
    <text text-anchor='end' fill='#666' x='44' y='92'>4</text>\n\
    <text x='56' y='92'>publish alice /doc 10 text:abc</text>\n\
    <use href='#publish' x='464' y='88'></use>\n\
    <text font-size='11' x='480' y='92'>1 sync 1</text>\n\
    <text text-anchor='end' font-size='11' font-weight='bold' x='450' y='83'>1</text>\n\
    <line stroke='#ddd' x1='56' y1='130' x2='656' y2='130'></line>\n\
    <text text-anchor='end' fill='#666' x='44' y='120'>5</text>\n\
    <text x='56' y='120'>settle 2</text>\n\
    <rect fill='#bbb' fill-opacity='0.6' x='400' y='103' width='256' height='26'></rect>\n\
    <text font-size='11' x='472' y='120'>kept 2</text>\n\
    <text text-anchor='end' font-size='11' font-weight='bold' x='578' y='111'>1</text>\n\
    <use href='#publish' x='64' y='160'></use>\n\
    <text font-size='11' x='80' y='164'>publish</text>\n\
    <use href='#withdraw' x='150' y='160'></use>\n\
    <text font-size='11' x='166' y='164'>withdraw</text>\n\
    <use href='#timer' x='244' y='160'></use>\n\
    <text font-size='11' x='260' y='164'>timer sends</text>\n\
    <use href='#restart' x='358' y='160'></use>\n\
    <text font-size='11' x='374' y='164'>restart</text>\n\
    <use href='#command' x='444' y='160'></use>\n\
    <text font-size='11' x='460' y='164'>command</text>\n\
    <use href='#fetch' x='66' y='184'></use>\n\
    <text font-size='11' x='82' y='188'>came of planned</text>\n\
    <line stroke='#000' stroke-width='1.5' marker-end='url(#head)' x1='202' y1='184' x2='226' y2='184'></line>\n\
    <text font-size='11' x='234' y='188'>sync or Data</text>\n\
    <line stroke='#000' stroke-width='1.5' stroke-dasharray='6 4' marker-end='url(#head)' x1='330' y1='184' \
    x2='354' y2='184'></line>\n\
    <text font-size='11' x='362' y='188'>suppressed</text>\n\
    <text text-anchor='end' font-size='11' font-weight='bold' x='460' y='188'>3</text>\n\
    <text font-size='11' x='466' y='188'>entries listed</text>\n\
    </svg>\n";

// A script of which everything is drawn that is drawn of scripts.
const SEEN: &str = "group /g\n\
    member alice /alice 6b31\n\
    member bob /bob 6b32\n\
    member longestlabel0123 /long 6b33\n\
    client carol /carol 6b34\n\
    mirror mia * /\n\
    # nothing is drawn of this line, nor of the next\n\
    vector alice\n\
    publish alice /doc 10 text:<&>\"'</text>\n\
    publish bob /notes/of/a/monday/in/december 100 text:a\n\
    deliver 1 bob\n\
    deliver 1 longestlabel0123\n\
    deliver 2 bob\n\
    deliver 2 alice\n\
    mdeliver 2 mia\n\
    claim bob 1\n\
    answer bob 1 longestlabel0123\n\
    answer bob 1 alice\n\
    fetch bob 1 16 500\n\
    mfetch mia 2 2 0\n\
    mfetch mia 2 2 0\n\
    restart bob\n\
    advance 60000\n\
    fire alice\n\
    fire alice\n\
    insert alice carol /film 0 1\n\
    block alice 1 0 text:fi\n\
    block alice 1 1 text:lm\n\
    withdraw alice 1\n\
    settle 2\n\
    delete bob carol /film\n\
    delete bob carol /none\n\
    settle 1\n";

const SEEN_DRAWN: &str =
    "<svg xmlns='http://www.w3.org/2000/svg' font-family='monospace' font-size='12' width='984' \
    height='708'><defs><marker id='head' markerWidth='7' markerHeight='6' refX='6' refY='3' orient='auto'><path \
    d='M0 0L7 3L0 6z'></path>\n\
    </marker>\n\
    <circle id='publish' r='6'></circle>\n\
    <path id='withdraw' d='M0 -7L7 0L0 7L-7 0z'></path>\n\
    <path id='timer' d='M-7 -6L7 -6L0 7z'></path>\n\
    <path id='restart' d='M-6 -6L6 6M-6 6L6 -6' stroke='#000' stroke-width='3'></path>\n\
    <path id='command' d='M-6 -6H6V6H-6z' fill='#fff' stroke='#000' stroke-width='2'></path>\n\
    <path id='fetch' d='M-10 -4H10V4H-10z' fill='#555'></path>\n\
    <path id='loop' d='M0 -6H24V6H2' fill='none' stroke='#000' marker-end='url(#head)'></path>\n\
    </defs>\n\
    <rect fill='#fff' width='984' height='708'></rect>\n\
    <line stroke='#777' stroke-width='1.5' x1='464' y1='46' x2='464' y2='634'></line>\n\
    <line stroke='#777' stroke-width='1.5' x1='592' y1='46' x2='592' y2='634'></line>\n\
    <line stroke='#777' stroke-width='1.5' x1='720' y1='46' x2='720' y2='634'></line>\n\
    <line stroke='#777' stroke-width='1.5' stroke-dasharray='2 4' x1='848' y1='46' x2='848' y2='634'></line>\n\
    <text text-anchor='middle' font-weight='bold' x='464' y='34'>alice</text>\n\
    <text text-anchor='middle' font-weight='bold' x='592' y='34'>bob</text>\n\
    <text text-anchor='middle' font-weight='bold' x='720' y='34'>longestlabel0123</text>\n\
    <text text-anchor='middle' font-weight='bold' font-style='italic' x='848' y='34'>mia</text>\n\
    <line stroke='#ddd' x1='56' y1='102' x2='912' y2='102'></line>\n\
    <text text-anchor='end' fill='#666' x='44' y='92'>9</text>\n\
    <text x='56' y='92'>publish alice /doc 10 text:&lt;&amp;&gt;&quot;'&lt;/text&gt;</text>\n\
    <use href='#publish' x='464' y='88'></use>\n\
    <text font-size='11' x='480' y='92'>1 sync 1</text>\n\
    <text text-anchor='end' font-size='11' font-weight='bold' x='450' y='83'>1</text>\n\
    <line stroke='#ddd' x1='56' y1='130' x2='912' y2='130'></line>\n\
    <text text-anchor='end' fill='#666' x='44' y='120'>10</text>\n\
    <text x='56' y='120'>publish bob /notes/of/a/monday/in/dec...</text>\n\
    <use href='#publish' x='592' y='116'></use>\n\
    <text font-size='11' x='608' y='120'>1 sync 2</text>\n\
    <text text-anchor='end' font-size='11' font-weight='bold' x='578' y='111'>1</text>\n\
    <line stroke='#ddd' x1='56' y1='158' x2='912' y2='158'></line>\n\
    <text text-anchor='end' fill='#666' x='44' y='148'>11</text>\n\
    <text x='56' y='148'>deliver 1 bob</text>\n\
    <line stroke='#000' stroke-width='1.5' stroke-dasharray='6 4' marker-end='url(#head)' x1='464' y1='144' \
    x2='592' y2='144'></line>\n\
    <text font-size='11' x='472' y='139'>sync 1</text>\n\
    <line stroke='#ddd' x1='56' y1='186' x2='912' y2='186'></line>\n\
    <text text-anchor='end' fill='#666' x='44' y='176'>12</text>\n\
    <text x='56' y='176'>deliver 1 longestlabel0123</text>\n\
    <line stroke='#000' stroke-width='1.5' marker-end='url(#head)' x1='464' y1='172' x2='720' y2='172'></line>\n\
    <text font-size='11' x='472' y='167'>sync 1</text>\n\
    <line stroke='#ddd' x1='56' y1='214' x2='912' y2='214'></line>\n\
    <text text-anchor='end' fill='#666' x='44' y='204'>13</text>\n\
    <text x='56' y='204'>deliver 2 bob</text>\n\
    <use href='#loop' stroke-width='1.5' stroke-dasharray='6 4' x='592' y='200'></use>\n\
    <text font-size='11' x='624' y='204'>sync 2</text>\n\
    <line stroke='#ddd' x1='56' y1='242' x2='912' y2='242'></line>\n\
    <text text-anchor='end' fill='#666' x='44' y='232'>14</text>\n\
    <text x='56' y='232'>deliver 2 alice</text>\n\
    <line stroke='#000' stroke-width='1.5' stroke-dasharray='6 4' marker-end='url(#head)' x1='592' y1='228' \
    x2='464' y2='228'></line>\n\
    <text text-anchor='end' font-size='11' x='584' y='223'>sync 2</text>\n\
    <line stroke='#ddd' x1='56' y1='270' x2='912' y2='270'></line>\n\
    <text text-anchor='end' fill='#666' x='44' y='260'>15</text>\n\
    <text x='56' y='260'>mdeliver 2 mia</text>\n\
    <line stroke='#000' stroke-width='1.5' marker-end='url(#head)' x1='592' y1='256' x2='848' y2='256'></line>\n\
    <text font-size='11' x='600' y='251'>sync 2</text>\n\
    <line stroke='#ddd' x1='56' y1='298' x2='912' y2='298'></line>\n\
    <text text-anchor='end' fill='#666' x='44' y='288'>18</text>\n\
    <text x='56' y='288'>answer bob 1 alice</text>\n\
    <line stroke='#000' stroke-width='1.5' marker-end='url(#head)' x1='464' y1='284' x2='592' y2='284'></line>\n\
    <text font-size='11' x='472' y='279'>Data</text>\n\
    <line stroke='#ddd' x1='56' y1='326' x2='912' y2='326'></line>\n\
    <text text-anchor='end' fill='#666' x='44' y='316'>19</text>\n\
    <text x='56' y='316'>fetch bob 1 16 500</text>\n\
    <use href='#fetch' x='592' y='312'></use>\n\
    <text font-size='11' x='608' y='316'>2 of 2</text>\n\
    <text text-anchor='end' font-size='11' font-weight='bold' x='578' y='307'>2</text>\n\
    <line stroke='#ddd' x1='56' y1='354' x2='912' y2='354'></line>\n\
    <text text-anchor='end' fill='#666' x='44' y='344'>20</text>\n\
    <text x='56' y='344'>mfetch mia 2 2 0</text>\n\
    <use href='#fetch' x='848' y='340'></use>\n\
    <text font-size='11' x='864' y='344'>1 of 1</text>\n\
    <line stroke='#ddd' x1='56' y1='382' x2='912' y2='382'></line>\n\
    <text text-anchor='end' fill='#666' x='44' y='372'>21</text>\n\
    <text x='56' y='372'>mfetch mia 2 2 0</text>\n\
    <use href='#fetch' x='848' y='368'></use>\n\
    <text font-size='11' x='864' y='372'>1 of 1</text>\n\
    <text text-anchor='end' font-size='11' font-weight='bold' x='834' y='363'>1</text>\n\
    <line stroke='#ddd' x1='56' y1='410' x2='912' y2='410'></line>\n\
    <text text-anchor='end' fill='#666' x='44' y='400'>22</text>\n\
    <text x='56' y='400'>restart bob</text>\n\
    <use href='#restart' x='592' y='396'></use>\n\
    <text font-size='11' x='608' y='400'>restart</text>\n\
    <line stroke='#ddd' x1='56' y1='438' x2='912' y2='438'></line>\n\
    <text text-anchor='end' fill='#666' x='44' y='428'>24</text>\n\
    <text x='56' y='428'>fire alice</text>\n\
    <use href='#timer' x='464' y='424'></use>\n\
    <text font-size='11' x='480' y='428'>sync 3</text>\n\
    <line stroke='#ddd' x1='56' y1='466' x2='912' y2='466'></line>\n\
    <text text-anchor='end' fill='#666' x='44' y='456'>27</text>\n\
    <text x='56' y='456'>block alice 1 0 text:fi</text>\n\
    <use href='#command' x='464' y='452'></use>\n\
    <text font-size='11' x='480' y='456'>block 300</text>\n\
    <line stroke='#ddd' x1='56' y1='494' x2='912' y2='494'></line>\n\
    <text text-anchor='end' fill='#666' x='44' y='484'>28</text>\n\
    <text x='56' y='484'>block alice 1 1 text:lm</text>\n\
    <use href='#command' x='464' y='480'></use>\n\
    <text font-size='11' x='480' y='484'>block 200</text>\n\
    <text text-anchor='end' font-size='11' font-weight='bold' x='450' y='475'>2</text>\n\
    <line stroke='#ddd' x1='56' y1='522' x2='912' y2='522'></line>\n\
    <text text-anchor='end' fill='#666' x='44' y='512'>29</text>\n\
    <text x='56' y='512'>withdraw alice 1</text>\n\
    <use href='#withdraw' x='464' y='508'></use>\n\
    <text font-size='11' x='480' y='512'>3 sync 5</text>\n\
    <text text-anchor='end' font-size='11' font-weight='bold' x='450' y='503'>1</text>\n\
    <line stroke='#ddd' x1='56' y1='550' x2='912' y2='550'></line>\n\
    <text text-anchor='end' fill='#666' x='44' y='540'>30</text>\n\
    <text x='56' y='540'>settle 2</text>\n\
    <rect fill='#bbb' fill-opacity='0.6' x='400' y='523' width='512' height='26'></rect>\n\
    <text font-size='11' x='472' y='540'>kept 15</text>\n\
    <text text-anchor='end' font-size='11' font-weight='bold' x='450' y='531'>2</text>\n\
    <text text-anchor='end' font-size='11' font-weight='bold' x='706' y='531'>2</text>\n\
    <text text-anchor='end' font-size='11' font-weight='bold' x='834' y='531'>2</text>\n\
    <line stroke='#ddd' x1='56' y1='578' x2='912' y2='578'></line>\n\
    <text text-anchor='end' fill='#666' x='44' y='568'>31</text>\n\
    <text x='56' y='568'>delete bob carol /film</text>\n\
    <use href='#command' x='592' y='564'></use>\n\
    <text font-size='11' x='608' y='568'>delete 200</text>\n\
    <text text-anchor='end' font-size='11' font-weight='bold' x='578' y='559'>1</text>\n\
    <line stroke='#ddd' x1='56' y1='606' x2='912' y2='606'></line>\n\
    <text text-anchor='end' fill='#666' x='44' y='596'>32</text>\n\
    <text x='56' y='596'>delete bob carol /none</text>\n\
    <use href='#command' x='592' y='592'></use>\n\
    <text font-size='11' x='608' y='596'>delete 404</text>\n\
    <line stroke='#ddd' x1='56' y1='634' x2='912' y2='634'></line>\n\
    <text text-anchor='end' fill='#666' x='44' y='624'>33</text>\n\
    <text x='56' y='624'>settle 1</text>\n\
    <rect fill='#bbb' fill-opacity='0.6' x='400' y='607' width='512' height='26'></rect>\n\
    <text font-size='11' x='472' y='624'>kept 0</text>\n\
    <use href='#publish' x='64' y='664'></use>\n\
    <text font-size='11' x='80' y='668'>publish</text>\n\
    <use href='#withdraw' x='150' y='664'></use>\n\
    <text font-size='11' x='166' y='668'>withdraw</text>\n\
    <use href='#timer' x='244' y='664'></use>\n\
    <text font-size='11' x='260' y='668'>timer sends</text>\n\
    <use href='#restart' x='358' y='664'></use>\n\
    <text font-size='11' x='374' y='668'>restart</text>\n\
    <use href='#command' x='444' y='664'></use>\n\
    <text font-size='11' x='460' y='668'>command</text>\n\
    <use href='#fetch' x='66' y='688'></use>\n\
    <text font-size='11' x='82' y='692'>came of planned</text>\n\
    <line stroke='#000' stroke-width='1.5' marker-end='url(#head)' x1='202' y1='688' x2='226' y2='688'></line>\n\
    <text font-size='11' x='234' y='692'>sync or Data</text>\n\
    <line stroke='#000' stroke-width='1.5' stroke-dasharray='6 4' marker-end='url(#head)' x1='330' y1='688' \
    x2='354' y2='688'></line>\n\
    <text font-size='11' x='362' y='692'>suppressed</text>\n\
    <text text-anchor='end' font-size='11' font-weight='bold' x='460' y='692'>3</text>\n\
    <text font-size='11' x='466' y='692'>entries listed</text>\n\
    </svg>\n";

const PICTURES: [Row; 2] = [
    ("draw", FIRST, LabStatus::Done, FIRST_DRAWN),
    ("draw", SEEN, LabStatus::Done, SEEN_DRAWN),
];

#[test]
fn scripts_are_drawn(rt: HostRuntime) {
    expect_rows(&rt, &PICTURES);
}

// A script with `lines` lines that a picture shows.
fn restarts(rt: &(impl Abort + AllocGlobal), lines: usize) -> String {
    let mut script = String::from_str(rt.alloc(), "group /g\nmember alice /alice 6b31\n").expect(
        rt, "memory",
    );
    for _ in 0..lines {
        put(rt, &mut script, "restart alice\n");
    }
    script
}

// Expects `pieces` pieces between the rules of rows in a picture of `lines` lines, and `more` of the other rows.
fn expect_drawn<R: Threads + Sync + AllocGlobal + Abort>(
    rt: &R,
    lines: usize,
    pieces: usize,
    more: &str,
) {
    let script = restarts(rt, lines);
    let mut source = source_of(rt, script.as_bytes(), 5_000, Vec::new(rt.alloc()));
    let mut sink = VecSink::new(rt.alloc(), 5_000, Vec::new(rt.alloc()));
    same(
        rt,
        status_of(rt, "draw", &mut source, &mut sink),
        LabStatus::Done,
        more,
    );
    let written = str::from_utf8(sink.octets()).expect(rt, "a text");
    same(
        rt,
        written.split("<line stroke='#ddd'").count(),
        pieces,
        more,
    );
    is(rt, written.contains(more), more);
}

#[test]
fn later_rows_are_counted(rt: HostRuntime) {
    let whole = "</text>\n<use href='#publish' x='64' y='56104'></use>";
    expect_drawn(&rt, 2_000, 2_001, whole);
    let more =
        "<text font-style='italic' x='56' y='56092'>and 3 more</text>\n<use href='#publish' x='64' y='56132'>";
    expect_drawn(&rt, 2_003, 2_001, more);
}
