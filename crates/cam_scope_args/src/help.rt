//! What `camscope` says of itself.

/// All forms of the words, each with what it does.
pub const USAGE: &str = "usage: camscope explain [FILE]    the run in words
       camscope columns [FILE]    the run in columns, a node each
       camscope draw [FILE]       the run as a picture, which is SVG
          --action NAME           lights up what this action saw, and all that happened before that
          --stop EVENT            lights up how this event came to stop an action
       camscope shiviz [FILE]     the run as a log that ShiViz reads
       camscope check [FILE..]    whether the run keeps the lines '#= TEXT' of the script
       camscope gen SEED SIZE     the script of SIZE steps that is made from the number SEED
       camscope shrink [FILE]     the smallest script whose report still has a line
          --keep LINE             this line, in which * is any word
       camscope orders [FILE]     to what ends the orders of the lines lead
       camscope sweep [FILE]      to what ends one fault more leads, at each moment of the run
          --restart --stop --lose --repeat NODE..
                                  which faults, at which nodes; these words stand before FILE
          --show END              the first script that leads to this end
       camscope compare A B       in what the runs of two scripts differ
       camscope --help            these lines
       camscope --version         the version
Without FILE a script is read from standard input. The status is 0, 1 for a finding, 2 for wrong words.
";

/// The version: the file VERSION has its number.
pub const VERSION: &str = "camscope, of the version that the file VERSION names
";
