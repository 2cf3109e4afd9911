//! The files of worked jobs, as texts, and the reports that their runs must write.

pub const TWO_TOP: &str = "fe:0 => a:0 b:0 ;\n";

pub const INNER_TOP: &str = "fe:0 => c0:0 ;\nc0:0 => a:0 b:0 ;\n";

pub const TWO_INNER_TOP: &str = "fe:0 => c0:0 c1:0 ;\nc0:0 => n0:0 n1:0 ;\nc1:0 => n2:0 n3:0 ;\n";

pub const ONE_TOP: &str = "fe:0 => a:0 ;\n";

pub const ALL_SCR: &str = "stream 0 wait-for-all waves 1 samples 1 on all\n";

pub const DONT_WAIT_SCR: &str = "stream 0 dont-wait waves 1 samples 1 on all\n";

pub const FOUR_SMP: &str =
    "daemon a:0 0-1\ndaemon b:0 2-3\nstack 0 0,2-3 main;MPI_Barrier\nstack 0 1 main;compute\n";

// The release of the four ranks, whatever stands between the front end and their daemons.
pub const FOUR_RELEASE: &str = "stream 0 wave 0 release 1 final
covered 4:[0-3]
tree
4:[0-3] - /
  4:[0-3] - main
    3:[0,2-3] 3:[0,2-3] MPI_Barrier
    1:[1] 1:[1] compute
classes
class 3:[0,2-3] paths 1
  main;MPI_Barrier
class 1:[1] paths 1
  main;compute
";

// The report of the four ranks, whatever stands between the front end and their daemons.
pub const FOUR_REPORT: &str = "stream 0 wave 0 release 1 final
covered 4:[0-3]
tree
4:[0-3] - /
  4:[0-3] - main
    3:[0,2-3] 3:[0,2-3] MPI_Barrier
    1:[1] 1:[1] compute
classes
class 3:[0,2-3] paths 1
  main;MPI_Barrier
class 1:[1] paths 1
  main;compute
end
";

// 64 ranks of which one waits for a message.
pub const SOLVER_SMP: &str = "daemon n0:0 0-15
daemon n1:0 16-31
daemon n2:0 32-47
daemon n3:0 48-63
stack 0 0-16,18-63 main;solver::step(Grid&);MPI_Barrier;PMPI_Barrier;poll
stack 0 17 main;solver::step(Grid&);solver::exchange<double, 3>(Grid const&, int);MPI_Recv
";

pub const SOLVER_REPORT: &str = "stream 0 wave 0 release 1 final
covered 64:[0-63]
tree
64:[0-63] - /
  64:[0-63] - main
    64:[0-63] - solver::step(Grid&)
      63:[0-16,18-63] - MPI_Barrier
        63:[0-16,18-63] - PMPI_Barrier
          63:[0-16,18-63] 63:[0-16,18-63] poll
      1:[17] - solver::exchange<double, 3>(Grid const&, int)
        1:[17] 1:[17] MPI_Recv
classes
class 63:[0-16,18-63] paths 1
  main;solver::step(Grid&);MPI_Barrier;PMPI_Barrier;poll
class 1:[17] paths 1
  main;solver::step(Grid&);solver::exchange<double, 3>(Grid const&, int);MPI_Recv
end
";

// Eight daemons of two ranks each, below six inner nodes.
pub const STORM_TOP: &str = "fe:0 => c0:0 c1:0 ;
c0:0 => c2:0 c3:0 ;
c1:0 => c4:0 c5:0 ;
c2:0 => d0:0 d1:0 ;
c3:0 => d2:0 d3:0 ;
c4:0 => d4:0 d5:0 ;
c5:0 => d6:0 d7:0 ;
";

pub const STORM_SMP: &str = "daemon d0:0 0-1
daemon d1:0 2-3
daemon d2:0 4-5
daemon d3:0 6-7
daemon d4:0 8-9
daemon d5:0 10-11
daemon d6:0 12-13
daemon d7:0 14-15
stack 0 0-15 main
stack 0 3,9 main;recv
";

pub const STORM_RELEASE: &str = "stream 0 wave 0 release 1 final
covered 16:[0-15]
tree
16:[0-15] - /
  16:[0-15] 16:[0-15] main
    2:[3,9] 2:[3,9] recv
classes
class 14:[0-2,4-8,10-15] paths 1
  main
class 2:[3,9] paths 2
  main
  main;recv
";

// The report of the four ranks, where the daemon b is lost at the start.
pub const NO_B: &str = "stream 0 wave 0 release 1 final
covered 2:[0-1]
lost b:0 2:[2-3]
tree
2:[0-1] - /
  2:[0-1] - main
    1:[0] 1:[0] MPI_Barrier
    1:[1] 1:[1] compute
classes
class 1:[0] paths 1
  main;MPI_Barrier
class 1:[1] paths 1
  main;compute
fault b:0 lost after 0
end
";

// The inner node is lost after it has sent.
pub const LOST_SCR: &str =
    "stream 0 wait-for-all waves 1 samples 1 on all\nlose c0:0 after 2 keep 1\n";

pub const LOST_JOURNAL: &str = "sample a:0 0 0
sample b:0 0 0
recv c0:0 a:0
recv c0:0 b:0
lose c0:0
recv a:0 c0:0
recv b:0 c0:0
recv fe:0 a:0
recv fe:0 a:0
recv fe:0 c0:0
recv fe:0 c0:0
recv fe:0 b:0
recv fe:0 b:0
recv a:0 fe:0
recv b:0 fe:0
";

// A job's three files, and the report that the run of it must write.
pub struct Worked {
    pub topology: &'static str,
    pub samples: &'static str,
    pub script: &'static str,
    pub report: &'static str,
}

// Two ranks at different lines of one function.
const LINES_SMP: &str = "daemon a:0 0-1\nstack 0 0 main@10;f@3\nstack 0 1 main@12;f@3\n";

// The same ranks where lines are looked at.
const LINES_REPORT: &str = "stream 0 wave 0 release 1 final
covered 2:[0-1]
tree
2:[0-1] - /
  1:[0] - main@10
    1:[0] 1:[0] f@3
  1:[1] - main@12
    1:[1] 1:[1] f@3
classes
class 1:[0] paths 1
  main@10;f@3
class 1:[1] paths 1
  main@12;f@3
end
";

pub const FUNCTION_SCR: &str = "stream 0 wait-for-all waves 1 samples 1 by function on all\n";

pub const WORKED: [Worked; 18] = [
    // functions alone
    Worked {
        topology: ONE_TOP,
        samples: LINES_SMP,
        script: FUNCTION_SCR,
        report: "stream 0 wave 0 release 1 final
covered 2:[0-1]
tree
2:[0-1] - /
  2:[0-1] - main
    2:[0-1] 2:[0-1] f
classes
class 2:[0-1] paths 1
  main;f
end
",
    },
    // by line, said and unsaid
    Worked {
        topology: ONE_TOP,
        samples: LINES_SMP,
        script: "stream 0 wait-for-all waves 1 samples 1 by line on all\n",
        report: LINES_REPORT,
    },
    Worked {
        topology: ONE_TOP,
        samples: LINES_SMP,
        script: ALL_SCR,
        report: LINES_REPORT,
    },
    // what is a line number and what is not
    Worked {
        topology: ONE_TOP,
        samples: "daemon a:0 0-6
stack 0 0 @7
stack 0 1 f@
stack 0 2 f@12x
stack 0 3 poll@plt
stack 0 4 f@1234567890
stack 0 5 f@1@2
stack 0 6 f@007
",
        script: FUNCTION_SCR,
        report: "stream 0 wave 0 release 1 final
covered 7:[0-6]
tree
7:[0-6] - /
  1:[0] 1:[0] @7
  1:[6] 1:[6] f
  1:[1] 1:[1] f@
  1:[5] 1:[5] f@1
  1:[4] 1:[4] f@1234567890
  1:[2] 1:[2] f@12x
  1:[3] 1:[3] poll@plt
classes
class 1:[0] paths 1
  @7
class 1:[1] paths 1
  f@
class 1:[2] paths 1
  f@12x
class 1:[3] paths 1
  poll@plt
class 1:[4] paths 1
  f@1234567890
class 1:[5] paths 1
  f@1
class 1:[6] paths 1
  f
end
",
    },
    Worked {
        topology: TWO_TOP,
        samples: FOUR_SMP,
        script: ALL_SCR,
        report: FOUR_REPORT,
    },
    // in the text of a topology's generator
    Worked {
        topology: "# one front end\nfe:0 =>\n  n0:0 n1:0\n  n2:0 n3:0 ;",
        samples: SOLVER_SMP,
        script: ALL_SCR,
        report: SOLVER_REPORT,
    },
    // a daemon without samples
    Worked {
        topology: ONE_TOP,
        samples: "daemon a:0 0\n",
        script: ALL_SCR,
        report: "stream 0 wave 0 release 1 final
covered 1:[0]
tree
1:[0] - /
classes
class 1:[0] paths 0
end
",
    },
    // the greatest rank
    Worked {
        topology: ONE_TOP,
        samples: "daemon a:0 1048575\n",
        script: ALL_SCR,
        report: "stream 0 wave 0 release 1 final
covered 1:[1048575]
tree
1:[1048575] - /
classes
class 1:[1048575] paths 0
end
",
    },
    // one path goes on where another ends
    Worked {
        topology: ONE_TOP,
        samples: "daemon a:0 0-1\nstack 0 0 main;a\nstack 0 1 main;a;b\n",
        script: ALL_SCR,
        report: "stream 0 wave 0 release 1 final
covered 2:[0-1]
tree
2:[0-1] - /
  2:[0-1] - main
    2:[0-1] 1:[0] a
      1:[1] 1:[1] b
classes
class 1:[0] paths 1
  main;a
class 1:[1] paths 1
  main;a;b
end
",
    },
    // three samples, in which both ranks have the same paths, and one line after them
    Worked {
        topology: ONE_TOP,
        samples: "daemon a:0 0-1
stack 0 0 main;a
stack 1 0 main;b
stack 2 0 main;a
stack 0 1 main;b
stack 1 1 main;a
stack 2 1 main;b
stack 3 0 other
",
        script: "stream 0 wait-for-all waves 1 samples 3 on all\n",
        report: "stream 0 wave 0 release 1 final
covered 2:[0-1]
tree
2:[0-1] - /
  2:[0-1] - main
    2:[0-1] 2:[0-1] a
    2:[0-1] 2:[0-1] b
classes
class 2:[0-1] paths 2
  main;a
  main;b
end
",
    },
    // ranks without a path are a class of their own, and a path may end in a space
    Worked {
        topology: TWO_TOP,
        samples: "daemon a:0 0-2\ndaemon b:0 64,3-4\nstack 65535 0 late\nstack 0 64,2 f \n",
        script: ALL_SCR,
        report: "stream 0 wave 0 release 1 final
covered 6:[0-4,64]
tree
6:[0-4,64] - /
  2:[2,64] 2:[2,64] f 
classes
class 4:[0-1,3-4] paths 0
class 2:[2,64] paths 1
  f 
end
",
    },
    // an inner node for two daemons each
    Worked {
        topology: TWO_INNER_TOP,
        samples: SOLVER_SMP,
        script: ALL_SCR,
        report: SOLVER_REPORT,
    },
    // one inner node
    Worked {
        topology: INNER_TOP,
        samples: FOUR_SMP,
        script: ALL_SCR,
        report: FOUR_REPORT,
    },
    // a daemon beside an inner node
    Worked {
        topology: "fe:0 => a:0 c:0 ;\nc:0 => b:0 ;\n",
        samples: FOUR_SMP,
        script: ALL_SCR,
        report: FOUR_REPORT,
    },
    // the greatest depth
    Worked {
        topology: "fe:0 => c:1 ;\nc:1 => c:2 ;\nc:2 => c:3 ;\nc:3 => c:4 ;\nc:4 => c:5 ;\nc:5 => c:6 ;\nc:6 => c:7 ;\nc:7 => a:0 b:0 ;\n",
        samples: FOUR_SMP,
        script: ALL_SCR,
        report: FOUR_REPORT,
    },
    // a stream on some of the daemons
    Worked {
        topology: TWO_TOP,
        samples: FOUR_SMP,
        script: "stream 0 wait-for-all waves 1 samples 1 on b:0\n",
        report: "stream 0 wave 0 release 1 final
covered 2:[2-3]
tree
2:[2-3] - /
  2:[2-3] - main
    2:[2-3] 2:[2-3] MPI_Barrier
classes
class 2:[2-3] paths 1
  main;MPI_Barrier
end
",
    },
    // what comes in is released at once
    Worked {
        topology: TWO_TOP,
        samples: FOUR_SMP,
        script: DONT_WAIT_SCR,
        report: "stream 0 wave 0 release 1 partial
covered 2:[0-1]
pending b:0 2:[2-3]
tree
2:[0-1] - /
  2:[0-1] - main
    1:[0] 1:[0] MPI_Barrier
    1:[1] 1:[1] compute
classes
class 1:[0] paths 1
  main;MPI_Barrier
class 1:[1] paths 1
  main;compute
stream 0 wave 0 release 2 final
covered 4:[0-3]
tree
4:[0-3] - /
  4:[0-3] - main
    3:[0,2-3] 3:[0,2-3] MPI_Barrier
    1:[1] 1:[1] compute
classes
class 3:[0,2-3] paths 1
  main;MPI_Barrier
class 1:[1] paths 1
  main;compute
end
",
    },
    // two waves of two samples each: what a rank does at the second time of a wave, and at the first of the next one
    Worked {
        topology: ONE_TOP,
        samples: "daemon a:0 0-1
stack 0 0-1 main;a
stack 1 0-1 main;b
stack 2 0 main;c
stack 2 1 main;d
stack 3 0-1 main;e
stack 4 0-1 main;f
",
        script: "stream 0 wait-for-all waves 2 samples 2 on all\n",
        report: "stream 0 wave 0 release 1 final
covered 2:[0-1]
tree
2:[0-1] - /
  2:[0-1] - main
    2:[0-1] 2:[0-1] a
    2:[0-1] 2:[0-1] b
classes
class 2:[0-1] paths 2
  main;a
  main;b
stream 0 wave 1 release 1 final
covered 2:[0-1]
tree
2:[0-1] - /
  2:[0-1] - main
    1:[0] 1:[0] c
    1:[1] 1:[1] d
    2:[0-1] 2:[0-1] e
classes
class 1:[0] paths 2
  main;c
  main;e
class 1:[1] paths 2
  main;d
  main;e
end
",
    },
];
