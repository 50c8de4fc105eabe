// METHOD 3 and 6.1: steps 1 to 7 and their exact working, as definitions and laws. There is no code here.
#![tactic(auto)]
