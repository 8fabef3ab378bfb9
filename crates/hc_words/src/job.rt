use crate::file_name::FileName;

/// What the program is asked to do.
#[derive(Debug, Drop)]
pub enum Job {
    /// To check a source and write its netlist, as EDIF, as Verilog or as both.
    Build {
        file: FileName,
        edif: Option<FileName>,
        verilog: Option<FileName>,
    },
    /// To check a source alone.
    Check {
        file: FileName,
    },
    /// To run a source on a stimulus and write its trace.
    Sim {
        file: FileName,
        stim: FileName,
        trace: FileName,
    },
    /// To run a netlist on a stimulus and write its trace.
    Nsim {
        file: FileName,
        stim: FileName,
        trace: FileName,
    },
    /// To run a source and a netlist on a stimulus and compare their outputs.
    Compare {
        file: FileName,
        net: FileName,
        stim: FileName,
    },
    /// To build and run a ring of so many threads, from 2 to 200.
    Gen {
        n: u32,
    },
    /// To write the text of the cells.
    Cells,
}
