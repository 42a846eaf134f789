//! Programs, and what each of their lines does.
use sn_block::read_line;
use sn_geom::{Acts, Motion, Pt3};
use sn_machine::Machine;
use std::alloc::{AllocError, Global};
use std::test::Fail;

/// A row for each line: the line, a bar, and what it does, its fault, or `unread`. An empty row begins a new program.
const PROGRAMS: &str = "% |
G21 G90 G17 G94 G40 G61 |
(T1 #17) |
(WS #4) | mark 4
T1 M6 | tool 1
G43 H1 |
S720 M3 |
F300 |
G0 Z20.0000 | enter 200000
G0 X10.0000 Y10.0000 | locate 100000,100000,200000
G0 Z11.0000 | rapid 100000,100000,200000 100000,100000,110000 tool 1
G1 Z4.0000 | feed 100000,100000,110000 100000,100000,40000 feed 300 speed 720 tool 1
G0 Z20.0000 | rapid 100000,100000,40000 100000,100000,200000 tool 1
M2 | end
% |
G1 X1 |
M6 |
% |

G1 X1 | NoTool
M6 | NoTool
T2 M6 | tool 2
G43 H1 | WrongOffset
G43 | WrongOffset
G0 Z1 | ModeUnset

G21 G90 G17 G94 G40 G61 |
T1 M6 | tool 1
G43 H1 |
S3000 M3 F600 |
G0 Z1 | enter 10000
X1 | LostAxis
X1 Y1 Z2 | LostAxis
Z20 | enter 200000
X1 Y1 Z20 | locate 10000,10000,200000
G1 X1 Z4 | feed 10000,10000,200000 10000,10000,40000 feed 600 speed 3000 tool 1
X2 Z5 | Slanted
X1 Y1 Z4 | feed 10000,10000,40000 10000,10000,40000 feed 600 speed 3000 tool 1
G49 |
Z5 | NoOffset
G43 H1 Z5 | feed 10000,10000,40000 10000,10000,50000 feed 600 speed 3000 tool 1
T1 M6 | tool 1
G43 H1 Z6 | LostAxis
G0 G43 H1 Z6 | enter 60000
G1 X1 Y1 | LostAxis
G0 X1 Y1 | locate 10000,10000,60000
G1 Z5 | SpindleOff
M3 G1 Z5 | feed 10000,10000,60000 10000,10000,50000 feed 600 speed 3000 tool 1
S0 Z4 | SpindleOff
M5 Z4 | SpindleOff
F0 Z4 | NoFeed
G80 Z4 | NoMotion
G80 |
Z4 | NoMotion
G0 | NoMotion
G0 Z4 M30 | rapid 10000,10000,50000 10000,10000,40000 tool 1 end
(a comment) |
N5 | AfterEnd
(WS #44) | AfterEnd
M0 | AfterEnd

X1 | NoMotion
% |
% |
% |
X1 |

 |
% | Percent
M2 | end
% | Percent
G80 | AfterEnd

T0 M6 | tool 0
G43 H0 | WrongOffset
G0 Z1 | NoTool
T3 |
G0 Z1 | NoTool
M6 | tool 3
H3 | WrongOffset
G43 H3 G0 Z1 | ModeUnset
G21 G90 G17 G94 G40 |
G43 H3 G0 Z1 | ModeUnset
G61.1 |
G0 X1 Y1 | NoOffset
(WS #9) G43 H3 G0 Z1 M7 M0 G54 | mark 9 enter 10000
X0 Y0 | locate 0,0,10000

% |
G21 G90 G17 G94 G40 G61 |
(T1 #20) |
(WS #44) | mark 44
T1 M6 | tool 1
G43 H1 |
S3000 M3 |
F60000 |
G0 X-0.1000 Y-0.2000 | LostAxis
G0 Z1.6500 | enter 16500
G1 Z0.6000 | LostAxis
G1 X3.6000 Y-0.2000 | LostAxis
G1 X3.7000 Y0.0000 | LostAxis

%G21 G90 G17 G94 G40 G61 | unread
(T1 #16) |
(WS #43) | mark 43
T1 M6 | tool 1
G43 H1 |
S1200 M3 |
F1200 |
G0 Z1.4000 | ModeUnset
G0 X-2.0000 Y-1.2000 | ModeUnset
G0 Z1.2500 | ModeUnset
G1 Z0.0500 | ModeUnset
G1 X-0.2000 Y-1.2000 | ModeUnset

G.0% | unread
G21 G90 G17 G94 G40 G61 |
(T1 #38) |
(WS #72) | mark 72
T1 M6 | tool 1
G43 H1 |
S60000 M3 |
F300 |
G0 Z5.6000 | enter 56000
G0 X6.4000 Y4.8000 | locate 64000,48000,56000
G0 Z4.0000 | rapid 64000,48000,56000 64000,48000,40000 tool 1
G1 Z2.6000 | feed 64000,48000,40000 64000,48000,26000 feed 300 speed 60000 tool 1
G1 X8.8000 Y4.8000 | feed 64000,48000,26000 88000,48000,26000 feed 300 speed 60000 tool 1
G1 X8.8000 Y5.2000 | feed 88000,48000,26000 88000,52000,26000 feed 300 speed 60000 tool 1
G1 X6.4000 Y5.2000 | feed 88000,52000,26000 64000,52000,26000 feed 300 speed 60000 tool 1
G1 X6.4000 Y5.6000 | feed 64000,52000,26000 64000,56000,26000 feed 300 speed 60000 tool 1
G1 X8.8000 Y5.6000 | feed 64000,56000,26000 88000,56000,26000 feed 300 speed 60000 tool 1
G1 X8.8000 Y6.0000 | feed 88000,56000,26000 88000,60000,26000 feed 300 speed 60000 tool 1
G1 X6.4000 Y6.0000 | feed 88000,60000,26000 64000,60000,26000 feed 300 speed 60000 tool 1
G1 X6.4000 Y6.4000 | feed 64000,60000,26000 64000,64000,26000 feed 300 speed 60000 tool 1
G1 X7.2000 Y6.4000 | feed 64000,64000,26000 72000,64000,26000 feed 300 speed 60000 tool 1
G1 X6.8000 Y6.8000 | feed 72000,64000,26000 68000,68000,26000 feed 300 speed 60000 tool 1
G1 X6.4000 Y6.8000 | feed 68000,68000,26000 64000,68000,26000 feed 300 speed 60000 tool 1
G1 X6.4000 Y7.2000 | feed 64000,68000,26000 64000,72000,26000 feed 300 speed 60000 tool 1
G1 X6.8000 Y7.2000 | feed 64000,72000,26000 68000,72000,26000 feed 300 speed 60000 tool 1
G1 X6.8000 Y7.6000 | feed 68000,72000,26000 68000,76000,26000 feed 300 speed 60000 tool 1
G1 X6.4000 Y7.6000 | feed 68000,76000,26000 64000,76000,26000 feed 300 speed 60000 tool 1
G1 X6.4000 Y8.0000 | feed 64000,76000,26000 64000,80000,26000 feed 300 speed 60000 tool 1
G1 X6.8000 Y8.0000 | feed 64000,80000,26000 68000,80000,26000 feed 300 speed 60000 tool 1
G1 X6.8000 Y8.4000 | feed 68000,80000,26000 68000,84000,26000 feed 300 speed 60000 tool 1
G1 X6.4000 Y8.4000 | feed 68000,84000,26000 64000,84000,26000 feed 300 speed 60000 tool 1
G1 X6.4000 Y8.8000 | feed 64000,84000,26000 64000,88000,26000 feed 300 speed 60000 tool 1
G1 X6.8000 Y8.8000 | feed 64000,88000,26000 68000,88000,26000 feed 300 speed 60000 tool 1
G0 Z5.6000 | rapid 68000,88000,26000 68000,88000,56000 tool 1
M2 | end
% | Percent

% |
G21 G90 G17 G94 G40 G61 |
(T1 #27) |
(WS #66) | mark 66
T1 M6#1 | unread
G43 H1 | WrongOffset
S1200 M3 |
F300 |
G0 Z23.0000 | NoTool
G0 X-1.0000 Y-3.0000 | NoTool
G0 Z12.0000 | NoTool
G1 Z8.0000 | NoTool

% |
G21 G90 G17 G94 G40 G61 |
(T1 #15) |
(WS #40) | mark 40
T1 M6 | tool 1
G43 | WrongOffset
S720 M3 |
F2400 |
G0 Z8.5000 | NoOffset
G0 X27.0000 Y3.0000 | NoOffset
G0 Z4.5000 | NoOffset
G1 Z2.0000 | NoOffset

% |
G21 G90 G17 G94 G40 G61 |
(T1 #21) |
(T2 #18) |
(WS #93) | mark 93
T1 M6 | tool 1
G43 H1 |
S3000 M3 |
F1200 |
G0 Z3.0000 | enter 30000
G0 X7.5000 Y17.5000 | locate 75000,175000,30000
G1 Z0.5000 | feed 75000,175000,30000 75000,175000,5000 feed 1200 speed 3000 tool 1
G0 Z3.0000 | rapid 75000,175000,5000 75000,175000,30000 tool 1
(WS #64) | mark 64
S720 M3 |
F1200 |
G0 X10.0000 Y9.5000 | rapid 75000,175000,30000 100000,95000,30000 tool 1
G1 Z1.0000 | feed 100000,95000,30000 100000,95000,10000 feed 1200 speed 720 tool 1
G1 X11.0000 Y9.5000 | feed 100000,95000,10000 110000,95000,10000 feed 1200 speed 720 tool 1
G1 X11.0000 Y10.5000 | feed 110000,95000,10000 110000,105000,10000 feed 1200 speed 720 tool 1
M30 | end
G1 X10.0000 Y10.5000 | AfterEnd
G0 Z3.0000 | AfterEnd
(WS #64) | AfterEnd
S720 M3 | AfterEnd
F1200 | AfterEnd
G0 X10.0000 Y9.5000 | AfterEnd
G1 Z1.0000 | AfterEnd

% |
X38.3120 | NoMotion
G21 G90 G17 G94 G40 G61 |
(T1 #15) |
(T2 #18) |
(WS #48) | mark 48

% |
G21 G90 G17 G94 G40 G61 |
X5- * | unread
(T1 #20) |
(WS #50) | mark 50
T1 M6 | tool 1
X5-G43 H1 | unread
S3000 M3 |

% |
G21 G90 G17 G94 G40 G61 |
(T1 #16) |
(T2 #22) |
(WS #47) | mark 47
(WS #48) | mark 48
(WS #48) | mark 48
T1 M6 | tool 1
G43 H1 |
S1000 M3 |
F2400 |
G0 Z1.0780 | enter 10780
G0 Z-2.1720 | enter -21720
G1 Z-3.9220 | LostAxis
G1 X19.5000 Y19.0000 | LostAxis
G0 Z1.0780 | enter 10780
G0 X13.0000 Y18.5000 | locate 130000,185000,10780
G0 Z-2.1720 | rapid 130000,185000,10780 130000,185000,-21720 tool 1
G1 Z-3.9220 | feed 130000,185000,-21720 130000,185000,-39220 feed 2400 speed 1000 tool 1
G0 Z1.0780 | rapid 130000,185000,-39220 130000,185000,10780 tool 1
(WS #64) | mark 64
T2 M6 | tool 2
G43 H2 |
S60000 M3 |";

fn told_point(alloc: Global, p: &Pt3) -> Result<String, AllocError> {
    let x = p.x.get();
    let y = p.y.get();
    let z = p.z.get();
    format!(in alloc; "{x},{y},{z}")
}

fn told_motion(alloc: Global, motion: &Motion) -> Result<String, AllocError> {
    match motion {
        Motion::Enter(z) => {
            let z = z.get();
            format!(in alloc; " enter {z}")
        }
        Motion::Locate(to) => {
            let to = told_point(alloc, to)?;
            format!(in alloc; " locate {to}")
        }
        Motion::Rapid(from, to, tool) => {
            let from = told_point(alloc, from)?;
            let to = told_point(alloc, to)?;
            format!(in alloc; " rapid {from} {to} tool {tool}")
        }
        Motion::Feed(from, to, feed, speed, tool) => {
            let from = told_point(alloc, from)?;
            let to = told_point(alloc, to)?;
            format!(in alloc; " feed {from} {to} feed {feed} speed {speed} tool {tool}")
        }
    }
}

fn told_acts(alloc: Global, acts: &Acts) -> Result<String, AllocError> {
    let mut text = String::new(alloc);
    if let Some(step) = acts.mark {
        text.push_str(format!(in alloc; " mark {step}")?.as_str())?;
    }
    if let Some(tool) = acts.tool {
        text.push_str(format!(in alloc; " tool {tool}")?.as_str())?;
    }
    if let Some(motion) = &acts.motion {
        text.push_str(told_motion(alloc, motion)?.as_str())?;
    }
    if acts.end {
        text.push_str(" end")?;
    }
    Ok(text)
}

/// What the machine does at the line.
fn told_line(alloc: Global, machine: &mut Machine, line: &str) -> Result<String, AllocError> {
    match read_line(line.as_bytes()) {
        Err(_) => String::from_str(alloc, " unread"),
        Ok(block) => match machine.step(&block) {
            Ok(acts) => told_acts(alloc, &acts),
            Err(fault) => format!(in alloc; " {fault:?}"),
        },
    }
}

#[test]
fn programs(rt: HostRuntime) -> Result<(), Fail> {
    let mut machine = Machine::new();
    for row in PROGRAMS.lines() {
        if let Some((line, wanted)) = row.split_once(" |") {
            let told = told_line(rt.alloc(), &mut machine, line)?;
            assert_eq!(rt; told.as_str(), wanted, "at {line}");
        } else {
            machine = Machine::new();
        }
    }
    Ok(())
}
