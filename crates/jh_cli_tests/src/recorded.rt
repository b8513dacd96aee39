//! The histories of a real Redis under `examples/redis/`, each with the status and the line that the page of that folder
//! tells, up to the order of a register. `tools/examples` writes this file.

use crate::rows::{Texts, first_wrong};

static REGISTER: &str =
    r#"{:index 0, :type :invoke, :process 0, :f :read, :value nil, :time 19804396}
{:index 1, :type :ok, :process 0, :f :read, :value nil, :time 20383874}
{:index 2, :type :invoke, :process 0, :f :read, :value nil, :time 24560740}
{:index 3, :type :ok, :process 0, :f :read, :value nil, :time 24807518}
{:index 4, :type :invoke, :process 2, :f :read, :value nil, :time 26695569}
{:index 5, :type :ok, :process 2, :f :read, :value nil, :time 27273000}
{:index 6, :type :invoke, :process 1, :f :write, :value 2, :time 44678937}
{:index 7, :type :ok, :process 1, :f :write, :value 2, :time 45261151}
{:index 8, :type :invoke, :process 3, :f :write, :value 3, :time 50597303}
{:index 9, :type :ok, :process 3, :f :write, :value 3, :time 51190610}
{:index 10, :type :invoke, :process 1, :f :read, :value nil, :time 59189463}
{:index 11, :type :ok, :process 1, :f :read, :value 3, :time 59427692}
{:index 12, :type :invoke, :process 2, :f :write, :value 3, :time 70852086}
{:index 13, :type :invoke, :process 3, :f :read, :value nil, :time 71069827}
{:index 14, :type :ok, :process 2, :f :write, :value 3, :time 71183019}
{:index 15, :type :ok, :process 3, :f :read, :value 3, :time 71359381}
{:index 16, :type :invoke, :process 0, :f :read, :value nil, :time 79033978}
{:index 17, :type :ok, :process 0, :f :read, :value 3, :time 79262495}
{:index 18, :type :info, :process :nemesis, :f :begin, :value :pause-primary, :time 86583647}
{:index 19, :type :info, :process :nemesis, :f :begin, :value :pause-primary, :time 86711083}
{:index 20, :type :invoke, :process 1, :f :read, :value nil, :time 116554654}
{:index 21, :type :invoke, :process 3, :f :write, :value 0, :time 116903080}
{:index 22, :type :invoke, :process 2, :f :write, :value 2, :time 124865722}
{:index 23, :type :invoke, :process 0, :f :read, :value nil, :time 138342922}
{:index 24, :type :info, :process 1, :f :read, :value nil, :time 166828329, :error :timeout}
{:index 25, :type :info, :process :nemesis, :f :withdraw, :value :pause-primary, :time 167005200}
{:index 26, :type :info, :process :nemesis, :f :withdraw, :value :pause-primary, :time 167077891}
{:index 27, :type :info, :process 3, :f :write, :value 0, :time 167118891, :error :timeout}
{:index 28, :type :ok, :process 0, :f :read, :value 2, :time 167399922}
{:index 29, :type :ok, :process 2, :f :write, :value 2, :time 167535129}
{:index 30, :type :invoke, :process 5, :f :read, :value nil, :time 177186391}
{:index 31, :type :ok, :process 5, :f :read, :value 2, :time 177738618}
{:index 32, :type :invoke, :process 0, :f :read, :value nil, :time 186238982}
{:index 33, :type :ok, :process 0, :f :read, :value 2, :time 186450720}
{:index 34, :type :invoke, :process 2, :f :read, :value nil, :time 188831166}
{:index 35, :type :ok, :process 2, :f :read, :value 2, :time 189024910}
{:index 36, :type :invoke, :process 0, :f :read, :value nil, :time 199672307}
{:index 37, :type :ok, :process 0, :f :read, :value 2, :time 199896196}
{:index 38, :type :invoke, :process 0, :f :cas, :value [0 1], :time 203703983}
{:index 39, :type :fail, :process 0, :f :cas, :value [0 1], :time 204106546, :error :did-not-match}
{:index 40, :type :invoke, :process 2, :f :cas, :value [4 1], :time 208068028}
{:index 41, :type :fail, :process 2, :f :cas, :value [4 1], :time 208370290, :error :did-not-match}
{:index 42, :type :invoke, :process 7, :f :cas, :value [2 1], :time 214260629}
{:index 43, :type :ok, :process 7, :f :cas, :value [2 1], :time 214850395}
{:index 44, :type :invoke, :process 5, :f :read, :value nil, :time 223855601}
{:index 45, :type :ok, :process 5, :f :read, :value 1, :time 224077366}
{:index 46, :type :invoke, :process 7, :f :cas, :value [3 1], :time 226990578}
{:index 47, :type :fail, :process 7, :f :cas, :value [3 1], :time 227208473, :error :did-not-match}
{:index 48, :type :invoke, :process 0, :f :write, :value 3, :time 228455701}
{:index 49, :type :ok, :process 0, :f :write, :value 3, :time 228753675}
{:index 50, :type :invoke, :process 7, :f :cas, :value [0 3], :time 243687050}
{:index 51, :type :fail, :process 7, :f :cas, :value [0 3], :time 243950051, :error :did-not-match}
{:index 52, :type :info, :process :nemesis, :f :begin, :value :hold-writes, :time 247303961}
{:index 53, :type :info, :process :nemesis, :f :begin, :value :hold-writes, :time 247889754}
{:index 54, :type :invoke, :process 5, :f :write, :value 0, :time 259284997}
{:index 55, :type :invoke, :process 7, :f :write, :value 3, :time 262373286}
{:index 56, :type :invoke, :process 2, :f :cas, :value [3 3], :time 263524850}
{:index 57, :type :invoke, :process 0, :f :cas, :value [2 1], :time 268143027}
{:index 58, :type :info, :process 5, :f :write, :value 0, :time 309620933, :error :timeout}
{:index 59, :type :info, :process 7, :f :write, :value 3, :time 312667650, :error :timeout}
{:index 60, :type :info, :process 2, :f :cas, :value [3 3], :time 313810852, :error :timeout}
{:index 61, :type :info, :process 0, :f :cas, :value [2 1], :time 318412147, :error :timeout}
{:index 62, :type :info, :process :nemesis, :f :withdraw, :value :hold-writes, :time 328048897}
{:index 63, :type :info, :process :nemesis, :f :withdraw, :value :hold-writes, :time 328565126}
{:index 64, :type :invoke, :process 4, :f :write, :value 4, :time 333656275}
{:index 65, :type :ok, :process 4, :f :write, :value 4, :time 334110872}
{:index 66, :type :invoke, :process 6, :f :read, :value nil, :time 350846702}
{:index 67, :type :ok, :process 6, :f :read, :value 4, :time 351276295}
{:index 68, :type :invoke, :process 9, :f :write, :value 0, :time 361922070}
{:index 69, :type :ok, :process 9, :f :write, :value 0, :time 362429231}
{:index 70, :type :invoke, :process 11, :f :cas, :value [2 3], :time 372645104}
{:index 71, :type :fail, :process 11, :f :cas, :value [2 3], :time 373141032, :error :did-not-match}
{:index 72, :type :invoke, :process 6, :f :read, :value nil, :time 398005154}
{:index 73, :type :ok, :process 6, :f :read, :value 0, :time 398255639}
{:index 74, :type :invoke, :process 11, :f :cas, :value [3 4], :time 400896997}
{:index 75, :type :fail, :process 11, :f :cas, :value [3 4], :time 401150780, :error :did-not-match}
{:index 76, :type :info, :process :nemesis, :f :begin, :value :pause-primary, :time 408756547}
{:index 77, :type :info, :process :nemesis, :f :begin, :value :pause-primary, :time 408855680}
{:index 78, :type :invoke, :process 9, :f :write, :value 3, :time 415694756}
{:index 79, :type :invoke, :process 6, :f :read, :value nil, :time 456022421}
{:index 80, :type :info, :process 9, :f :write, :value 3, :time 465963326, :error :timeout}
{:index 81, :type :info, :process :nemesis, :f :withdraw, :value :pause-primary, :time 489011547}
{:index 82, :type :info, :process :nemesis, :f :withdraw, :value :pause-primary, :time 489117221}
{:index 83, :type :ok, :process 6, :f :read, :value 3, :time 489433332}
{:index 84, :type :invoke, :process 13, :f :cas, :value [2 0], :time 508876441}
{:index 85, :type :fail, :process 13, :f :cas, :value [2 0], :time 509395543, :error :did-not-match}
{:index 86, :type :invoke, :process 13, :f :read, :value nil, :time 527466777}
{:index 87, :type :ok, :process 13, :f :read, :value 3, :time 527725110}
→ 0
{:valid? true
§ {:index 0, :type :invoke, :process 1, :f :read, :value nil, :time 17659483}
{:index 1, :type :ok, :process 1, :f :read, :value nil, :time 18352118}
{:index 2, :type :invoke, :process 1, :f :write, :value 5, :time 55661212}
{:index 3, :type :invoke, :process 0, :f :write, :value 2, :time 56104984}
{:index 4, :type :ok, :process 1, :f :write, :value 5, :time 57089031}
{:index 5, :type :ok, :process 0, :f :write, :value 2, :time 57248801}
{:index 6, :type :info, :process :nemesis, :f :begin, :value :pause-primary, :time 67789852}
{:index 7, :type :info, :process :nemesis, :f :begin, :value :pause-primary, :time 67890758}
{:index 8, :type :invoke, :process 1, :f :write, :value 7, :time 74844295}
{:index 9, :type :invoke, :process 0, :f :cas, :value [2 4], :time 79183027}
{:index 10, :type :info, :process 1, :f :write, :value 7, :time 125186333, :error :timeout}
{:index 11, :type :info, :process 0, :f :cas, :value [2 4], :time 129609121, :error :timeout}
{:index 12, :type :info, :process :nemesis, :f :withdraw, :value :pause-primary, :time 158096398}
{:index 13, :type :info, :process :nemesis, :f :withdraw, :value :pause-primary, :time 158193028}
{:index 14, :type :invoke, :process 2, :f :cas, :value [2 6], :time 161880368}
{:index 15, :type :fail, :process 2, :f :cas, :value [2 6], :time 162489856, :error :did-not-match}
{:index 16, :type :invoke, :process 3, :f :read, :value nil, :time 167559588}
{:index 17, :type :ok, :process 3, :f :read, :value 7, :time 168248239}
{:index 18, :type :invoke, :process 2, :f :read, :value nil, :time 170574599}
{:index 19, :type :ok, :process 2, :f :read, :value 7, :time 171353896}
{:index 20, :type :invoke, :process 2, :f :cas, :value [7 10], :time 183445073}
{:index 21, :type :ok, :process 2, :f :cas, :value [7 10], :time 183946176}
{:index 22, :type :invoke, :process 3, :f :cas, :value [7 11], :time 193423154}
{:index 23, :type :invoke, :process 2, :f :read, :value nil, :time 193761523}
{:index 24, :type :ok, :process 2, :f :read, :value 10, :time 194123851}
{:index 25, :type :fail, :process 3, :f :cas, :value [7 11], :time 194498729, :error :did-not-match}
{:index 26, :type :invoke, :process 3, :f :write, :value 13, :time 205150773}
{:index 27, :type :ok, :process 3, :f :write, :value 13, :time 205517450}
{:index 28, :type :info, :process :nemesis, :f :begin, :value :cut, :time 218397152}
{:index 29, :type :info, :process :nemesis, :f :begin, :value :cut, :time 219248275}
{:index 30, :type :invoke, :process 2, :f :cas, :value [10 14], :time 219407644}
{:index 31, :type :fail, :process 2, :f :cas, :value [10 14], :time 219649946, :error :did-not-match}
{:index 32, :type :invoke, :process 2, :f :write, :value 16, :time 222283742}
{:index 33, :type :ok, :process 2, :f :write, :value 16, :time 222517889}
{:index 34, :type :invoke, :process 2, :f :write, :value 18, :time 236586675}
{:index 35, :type :ok, :process 2, :f :write, :value 18, :time 236869960}
{:index 36, :type :invoke, :process 3, :f :cas, :value [13 15], :time 246635053}
{:index 37, :type :fail, :process 3, :f :cas, :value [13 15], :time 247010807, :error :did-not-match}
{:index 38, :type :invoke, :process 3, :f :write, :value 17, :time 253104089}
{:index 39, :type :ok, :process 3, :f :write, :value 17, :time 253392658}
{:index 40, :type :invoke, :process 2, :f :write, :value 20, :time 277427902}
{:index 41, :type :ok, :process 2, :f :write, :value 20, :time 277669765}
{:index 42, :type :invoke, :process 2, :f :read, :value nil, :time 290749257}
{:index 43, :type :ok, :process 2, :f :read, :value 13, :time 291098749}
{:index 44, :type :invoke, :process 3, :f :cas, :value [17 19], :time 293123236}
{:index 45, :type :fail, :process 3, :f :cas, :value [17 19], :time 293374827, :error :did-not-match}
{:index 46, :type :invoke, :process 3, :f :write, :value 21, :time 294187958}
{:index 47, :type :ok, :process 3, :f :write, :value 21, :time 294375373}
{:index 48, :type :invoke, :process 3, :f :write, :value 23, :time 301126165}
{:index 49, :type :ok, :process 3, :f :write, :value 23, :time 301387129}
{:index 50, :type :info, :process :nemesis, :f :withdraw, :value :cut, :time 301781270}
{:index 51, :type :info, :process :nemesis, :f :withdraw, :value :cut, :time 302460626}
→ 1
{:valid? false}
"#;

#[test]
fn histories_of_register_have_their_lines(rt: HostRuntime) {
    let check = Texts::Orders("jeprun check --workload register");
    assert_eq!(rt; first_wrong(&rt, rt.alloc(), check, REGISTER), None);
}

static SET: &str = r#"{:index 0, :type :invoke, :process 0, :f :add, :value 0, :time 28855669}
{:index 1, :type :ok, :process 0, :f :add, :value 0, :time 29300748}
{:index 2, :type :invoke, :process 1, :f :add, :value 1, :time 29399437}
{:index 3, :type :ok, :process 1, :f :add, :value 1, :time 29624058}
{:index 4, :type :invoke, :process 1, :f :add, :value 3, :time 41108078}
{:index 5, :type :ok, :process 1, :f :add, :value 3, :time 41266520}
{:index 6, :type :invoke, :process 0, :f :add, :value 2, :time 71021923}
{:index 7, :type :info, :process :nemesis, :f :begin, :value :pause-primary, :time 71132299}
{:index 8, :type :info, :process :nemesis, :f :begin, :value :pause-primary, :time 71176603}
{:index 9, :type :invoke, :process 1, :f :add, :value 5, :time 71207660}
{:index 10, :type :info, :process 0, :f :add, :value 2, :time 124897918, :error :timeout}
{:index 11, :type :invoke, :process 2, :f :add, :value 4, :time 133097117}
{:index 12, :type :info, :process 1, :f :add, :value 5, :time 148961313, :error :timeout}
{:index 13, :type :invoke, :process 3, :f :add, :value 7, :time 151370498}
{:index 14, :type :info, :process :nemesis, :f :withdraw, :value :pause-primary, :time 161761939}
{:index 15, :type :info, :process :nemesis, :f :withdraw, :value :pause-primary, :time 161847419}
{:index 16, :type :ok, :process 2, :f :add, :value 4, :time 162297922}
{:index 17, :type :ok, :process 3, :f :add, :value 7, :time 169563864}
{:index 18, :type :invoke, :process 3, :f :add, :value 9, :time 174586861}
{:index 19, :type :ok, :process 3, :f :add, :value 9, :time 174795907}
{:index 20, :type :invoke, :process 3, :f :add, :value 11, :time 186863689}
{:index 21, :type :ok, :process 3, :f :add, :value 11, :time 187068891}
{:index 22, :type :invoke, :process 3, :f :add, :value 13, :time 210757267}
{:index 23, :type :ok, :process 3, :f :add, :value 13, :time 210982264}
{:index 24, :type :invoke, :process 3, :f :add, :value 15, :time 244026627}
{:index 25, :type :ok, :process 3, :f :add, :value 15, :time 244251825}
{:index 26, :type :invoke, :process 3, :f :add, :value 17, :time 275024459}
{:index 27, :type :ok, :process 3, :f :add, :value 17, :time 275247577}
{:index 28, :type :invoke, :process 3, :f :add, :value 19, :time 306425502}
{:index 29, :type :ok, :process 3, :f :add, :value 19, :time 306661825}
{:index 30, :type :info, :process :nemesis, :f :begin, :value :replace-primary, :time 352907104}
{:index 31, :type :info, :process :nemesis, :f :begin, :value :replace-primary, :time 372965915}
{:index 32, :type :invoke, :process 2, :f :add, :value 6, :time 381089659}
{:index 33, :type :ok, :process 2, :f :add, :value 6, :time 392875515}
{:index 34, :type :invoke, :process 2, :f :add, :value 8, :time 424924896}
{:index 35, :type :ok, :process 2, :f :add, :value 8, :time 425099003}
{:index 36, :type :invoke, :process 2, :f :add, :value 10, :time 439529709}
{:index 37, :type :ok, :process 2, :f :add, :value 10, :time 439700300}
{:index 38, :type :invoke, :process 2, :f :add, :value 12, :time 452000468}
{:index 39, :type :ok, :process 2, :f :add, :value 12, :time 452189518}
{:index 40, :type :info, :process :nemesis, :f :withdraw, :value :replace-primary, :time 485007219}
{:index 41, :type :info, :process :nemesis, :f :withdraw, :value :replace-primary, :time 485506275}
{:index 42, :type :invoke, :process 2, :f :add, :value 14, :time 535462706}
{:index 43, :type :ok, :process 2, :f :add, :value 14, :time 573290407}
{:index 44, :type :info, :process :nemesis, :f :begin, :value :pause-primary, :time 573367469}
{:index 45, :type :info, :process :nemesis, :f :begin, :value :pause-primary, :time 573411316}
{:index 46, :type :invoke, :process 2, :f :add, :value 16, :time 612916565}
{:index 47, :type :info, :process :nemesis, :f :withdraw, :value :pause-primary, :time 686108329}
{:index 48, :type :info, :process :nemesis, :f :withdraw, :value :pause-primary, :time 686612009}
{:index 49, :type :ok, :process 2, :f :add, :value 16, :time 686961739}
{:index 50, :type :invoke, :process 2, :f :add, :value 18, :time 734496380}
{:index 51, :type :ok, :process 2, :f :add, :value 18, :time 734803341}
{:index 52, :type :invoke, :process 2, :f :read, :value nil, :time 736187679}
{:index 53, :type :ok, :process 2, :f :read, :value #{0 1 2 3 4 5 7 9 11 13 14 15 16 17 18 19}, :time 736380434}
→ 1
{:valid? false, :ok [0 1 2 3 4 5 7 9 11 13 14 15 16 17 18 19], :lost [6 8 10 12], :unexpected [], :recovered [2 5]}
"#;

#[test]
fn histories_of_set_have_their_lines(rt: HostRuntime) {
    let check = Texts::Orders("jeprun check --workload set");
    assert_eq!(rt; first_wrong(&rt, rt.alloc(), check, SET), None);
}

static COUNTER: &str =
    r#"{:index 0, :type :info, :process :nemesis, :f :begin, :value :cut, :time 156862107}
{:index 1, :type :info, :process :nemesis, :f :begin, :value :cut, :time 157497151}
{:index 2, :type :invoke, :process 0, :f :read, :value nil, :time 206905541}
{:index 3, :type :ok, :process 0, :f :read, :value 0, :time 207323013}
{:index 4, :type :invoke, :process 1, :f :add, :value 3, :time 216268223}
{:index 5, :type :ok, :process 1, :f :add, :value 3, :time 216690033}
{:index 6, :type :invoke, :process 1, :f :add, :value 5, :time 238630045}
{:index 7, :type :ok, :process 1, :f :add, :value 5, :time 238803858}
{:index 8, :type :info, :process :nemesis, :f :withdraw, :value :cut, :time 254691861}
{:index 9, :type :info, :process :nemesis, :f :withdraw, :value :cut, :time 255326463}
{:index 10, :type :invoke, :process 0, :f :read, :value nil, :time 289517596}
{:index 11, :type :invoke, :process 1, :f :add, :value 3, :time 289606662}
{:index 12, :type :ok, :process 1, :f :add, :value 3, :time 289931624}
{:index 13, :type :ok, :process 0, :f :read, :value 0, :time 289965171}
{:index 14, :type :invoke, :process 0, :f :add, :value 4, :time 293078167}
{:index 15, :type :ok, :process 0, :f :add, :value 4, :time 306670594}
{:index 16, :type :invoke, :process 1, :f :read, :value nil, :time 366735678}
{:index 17, :type :ok, :process 1, :f :read, :value 8, :time 367220443}
{:index 18, :type :invoke, :process 0, :f :add, :value 2, :time 367287040}
{:index 19, :type :ok, :process 0, :f :add, :value 2, :time 367566639}
{:index 20, :type :invoke, :process 1, :f :read, :value nil, :time 375506951}
{:index 21, :type :info, :process :nemesis, :f :begin, :value :cut, :time 375624886}
{:index 22, :type :ok, :process 1, :f :read, :value 8, :time 375989017}
{:index 23, :type :info, :process :nemesis, :f :begin, :value :cut, :time 376197170}
{:index 24, :type :invoke, :process 0, :f :add, :value 2, :time 426745204}
{:index 25, :type :invoke, :process 1, :f :add, :value 1, :time 426863151}
{:index 26, :type :ok, :process 1, :f :add, :value 1, :time 426987550}
{:index 27, :type :ok, :process 0, :f :add, :value 2, :time 427027151}
{:index 28, :type :invoke, :process 1, :f :add, :value 2, :time 439744451}
{:index 29, :type :ok, :process 1, :f :add, :value 2, :time 439925001}
{:index 30, :type :invoke, :process 0, :f :read, :value nil, :time 440789527}
{:index 31, :type :ok, :process 0, :f :read, :value 8, :time 440931224}
{:index 32, :type :invoke, :process 0, :f :add, :value 1, :time 453155115}
{:index 33, :type :ok, :process 0, :f :add, :value 1, :time 453336521}
{:index 34, :type :invoke, :process 0, :f :add, :value 1, :time 462731566}
{:index 35, :type :ok, :process 0, :f :add, :value 1, :time 462903309}
{:index 36, :type :info, :process :nemesis, :f :withdraw, :value :cut, :time 466334081}
{:index 37, :type :info, :process :nemesis, :f :withdraw, :value :cut, :time 466845959}
{:index 38, :type :invoke, :process 1, :f :add, :value 1, :time 523832887}
{:index 39, :type :invoke, :process 0, :f :add, :value 2, :time 523943478}
{:index 40, :type :ok, :process 0, :f :add, :value 2, :time 524145766}
{:index 41, :type :ok, :process 1, :f :add, :value 1, :time 524176270}
{:index 42, :type :invoke, :process 0, :f :read, :value nil, :time 554733462}
{:index 43, :type :ok, :process 0, :f :read, :value 24, :time 555031619}
{:index 44, :type :invoke, :process 1, :f :read, :value nil, :time 570856972}
{:index 45, :type :ok, :process 1, :f :read, :value 27, :time 571140853}
{:index 46, :type :invoke, :process 0, :f :add, :value 1, :time 606742776}
{:index 47, :type :ok, :process 0, :f :add, :value 1, :time 606939513}
{:index 48, :type :info, :process :nemesis, :f :begin, :value :cut, :time 607091446}
{:index 49, :type :invoke, :process 1, :f :read, :value nil, :time 607315864}
{:index 50, :type :ok, :process 1, :f :read, :value 28, :time 607504380}
{:index 51, :type :info, :process :nemesis, :f :begin, :value :cut, :time 607604707}
{:index 52, :type :invoke, :process 1, :f :read, :value nil, :time 678067766}
{:index 53, :type :ok, :process 1, :f :read, :value 28, :time 678240216}
{:index 54, :type :info, :process :nemesis, :f :withdraw, :value :cut, :time 678336557}
{:index 55, :type :info, :process :nemesis, :f :withdraw, :value :cut, :time 678778732}
{:index 56, :type :invoke, :process 0, :f :read, :value nil, :time 827182176}
{:index 57, :type :ok, :process 0, :f :read, :value 28, :time 827302413}
→ 1
{:valid? false, :reads [[0 0 0] [8 0 11] [15 8 15] [17 8 17] [22 8 22] [27 24 27] [27 27 27] [28 28 28] [28 28 28] [28 28 28]], :errors [[8 0 11] [15 8 15] [17 8 17] [22 8 22] [27 24 27]]}
"#;

#[test]
fn histories_of_counter_have_their_lines(rt: HostRuntime) {
    let check = Texts::Orders("jeprun check --workload counter");
    assert_eq!(rt; first_wrong(&rt, rt.alloc(), check, COUNTER), None);
}

static UNIQUE_IDS: &str =
    r#"{:index 0, :type :info, :process :nemesis, :f :begin, :value :hold-writes, :time 131990526}
{:index 1, :type :invoke, :process 0, :f :generate, :value nil, :time 132298457}
{:index 2, :type :info, :process :nemesis, :f :begin, :value :hold-writes, :time 132696362}
{:index 3, :type :invoke, :process 1, :f :generate, :value nil, :time 137774116}
{:index 4, :type :info, :process :nemesis, :f :withdraw, :value :hold-writes, :time 202611453}
{:index 5, :type :ok, :process 1, :f :generate, :value 1, :time 203069536}
{:index 6, :type :ok, :process 0, :f :generate, :value 1, :time 203147387}
{:index 7, :type :info, :process :nemesis, :f :withdraw, :value :hold-writes, :time 203239872}
{:index 8, :type :invoke, :process 1, :f :generate, :value nil, :time 224604268}
{:index 9, :type :ok, :process 1, :f :generate, :value 2, :time 224898239}
{:index 10, :type :invoke, :process 1, :f :generate, :value nil, :time 233636966}
{:index 11, :type :ok, :process 1, :f :generate, :value 3, :time 233932376}
{:index 12, :type :invoke, :process 0, :f :generate, :value nil, :time 257324960}
{:index 13, :type :ok, :process 0, :f :generate, :value 4, :time 257563839}
{:index 14, :type :invoke, :process 0, :f :generate, :value nil, :time 260678322}
{:index 15, :type :ok, :process 0, :f :generate, :value 5, :time 260935391}
{:index 16, :type :invoke, :process 1, :f :generate, :value nil, :time 267016587}
{:index 17, :type :ok, :process 1, :f :generate, :value 6, :time 267275153}
{:index 18, :type :invoke, :process 0, :f :generate, :value nil, :time 289989243}
{:index 19, :type :ok, :process 0, :f :generate, :value 7, :time 290258048}
{:index 20, :type :invoke, :process 1, :f :generate, :value nil, :time 320231041}
{:index 21, :type :ok, :process 1, :f :generate, :value 8, :time 320504815}
{:index 22, :type :invoke, :process 1, :f :generate, :value nil, :time 321753646}
{:index 23, :type :ok, :process 1, :f :generate, :value 9, :time 321943632}
{:index 24, :type :info, :process :nemesis, :f :begin, :value :hold-writes, :time 326714517}
{:index 25, :type :info, :process :nemesis, :f :begin, :value :hold-writes, :time 327134572}
{:index 26, :type :invoke, :process 0, :f :generate, :value nil, :time 340467964}
{:index 27, :type :invoke, :process 1, :f :generate, :value nil, :time 358626393}
{:index 28, :type :info, :process :nemesis, :f :withdraw, :value :hold-writes, :time 390094901}
{:index 29, :type :ok, :process 1, :f :generate, :value 10, :time 390493471}
{:index 30, :type :ok, :process 0, :f :generate, :value 10, :time 390613986}
{:index 31, :type :info, :process :nemesis, :f :withdraw, :value :hold-writes, :time 390698156}
{:index 32, :type :invoke, :process 1, :f :generate, :value nil, :time 422630050}
{:index 33, :type :ok, :process 1, :f :generate, :value 11, :time 422912905}
{:index 34, :type :invoke, :process 0, :f :generate, :value nil, :time 450618463}
{:index 35, :type :ok, :process 0, :f :generate, :value 12, :time 450841554}
{:index 36, :type :invoke, :process 0, :f :generate, :value nil, :time 474618590}
{:index 37, :type :ok, :process 0, :f :generate, :value 13, :time 474892802}
{:index 38, :type :invoke, :process 1, :f :generate, :value nil, :time 478160609}
{:index 39, :type :ok, :process 1, :f :generate, :value 14, :time 478342963}
{:index 40, :type :invoke, :process 0, :f :generate, :value nil, :time 502631806}
{:index 41, :type :ok, :process 0, :f :generate, :value 15, :time 502910472}
{:index 42, :type :invoke, :process 0, :f :generate, :value nil, :time 514628410}
{:index 43, :type :info, :process :nemesis, :f :begin, :value :hold-writes, :time 514747028}
{:index 44, :type :info, :process :nemesis, :f :begin, :value :hold-writes, :time 515167249}
{:index 45, :type :invoke, :process 1, :f :generate, :value nil, :time 538277249}
{:index 46, :type :info, :process :nemesis, :f :withdraw, :value :hold-writes, :time 578748567}
{:index 47, :type :ok, :process 0, :f :generate, :value 16, :time 579119123}
{:index 48, :type :ok, :process 1, :f :generate, :value 16, :time 579156150}
{:index 49, :type :info, :process :nemesis, :f :withdraw, :value :hold-writes, :time 579233559}
{:index 50, :type :invoke, :process 0, :f :generate, :value nil, :time 602629395}
{:index 51, :type :ok, :process 0, :f :generate, :value 17, :time 602909557}
→ 1
{:valid? false, :attempted 20, :acknowledged 20, :duplicated [[1 2] [10 2] [16 2]]}
"#;

#[test]
fn histories_of_unique_ids_have_their_lines(rt: HostRuntime) {
    let check = Texts::Orders("jeprun check --workload unique-ids");
    assert_eq!(rt; first_wrong(&rt, rt.alloc(), check, UNIQUE_IDS), None);
}
