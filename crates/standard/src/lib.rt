// The DWARF 1.1 standard in its own words. Nothing here runs: what readers and writers are held against stands in specs/.

#![tactic(auto)]
