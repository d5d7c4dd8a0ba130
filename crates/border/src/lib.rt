// What is promised of runs by the C calls, said of plain numbers. No code: the statements are in specs/.
#![tactic(auto)]
