//! The texts of the examples, since no macro of the kit reads a file; `bench/examples.py` tells where one is another.

/// `examples/fib.cilk`
pub(crate) const FIB: &str =
    "// Fibonacci numbers, each call of which spawns two others.\n// A spawn's target has its value after the sync.\ncilk int fib(int n) {\n  int x, y;\n  if (n < 2) return n;\n  x = spawn fib(n - 1);\n  y = spawn fib(n - 2);\n  sync;\n  return x + y;\n}\n\ncilk int main() {\n  int result = spawn fib(20);\n  sync;\n  print(result);\n  return 0;\n}\n";

/// `examples/queens.cilk`
pub(crate) const QUEENS: &str =
    "// Counts the ways to place n queens on n by n squares, none attacking another.\n// Attacked columns and diagonals are binary digits of integers, and a square is the power of two\n// of its column. So a board goes to each child by value, and no two children share one.\nint attacked(int square, int columns, int up, int down) {\n  return columns / square % 2 + up / square % 2 + down / square % 2 > 0;\n}\n\ncilk int place(int rows, int end, int square, int columns, int up, int down) {\n  if (rows == 0) return 1;\n  if (square == end) return 0;\n  int here = 0, hit = attacked(square, columns, up, down);\n  if (!hit)\n    here = spawn place(rows - 1, end, 1, columns + square, (up + square) * 2, (down + square) / 2);\n  int further = spawn place(rows, end, square * 2, columns, up, down);\n  sync;\n  return here + further;\n}\n\ncilk int main() {\n  int end = 8;\n  for (int n = 4; n <= 7; n++) {\n    end = end * 2;\n    int ways = spawn place(n, end, 1, 0, 0, 0);\n    sync;\n    print(ways);\n  }\n  return 0;\n}\n";

/// `examples/merge_sort.cilk`
pub(crate) const MERGE_SORT: &str =
    "// Merge sort over a shared array: the halves are sorted by two spawns, then merged through scratch.\nint a[200], scratch[200];\n\nvoid merge(int low, int middle, int high) {\n  int i = low, j = middle;\n  for (int k = low; k < high; k++) {\n    if (j == high || (i < middle && a[i] <= a[j])) {\n      scratch[k] = a[i];\n      i++;\n    } else {\n      scratch[k] = a[j];\n      j++;\n    }\n  }\n  for (int k = low; k < high; k++) a[k] = scratch[k];\n}\n\ncilk void sort(int low, int high) {\n  if (high - low < 2) return;\n  int middle = (low + high) / 2;\n  spawn sort(low, middle);\n  spawn sort(middle, high);\n  sync;\n  merge(low, middle, high);\n}\n\ncilk int main() {\n  int n = 200;\n  for (int i = 0, x = 1; i < n; i++) {\n    x = x * 421 % 10007;\n    a[i] = x;\n  }\n  spawn sort(0, n);\n  sync;\n  int sorted = 1;\n  for (int i = 1; i < n; i++) if (a[i - 1] > a[i]) sorted = 0;\n  print(sorted);\n  print(a[0]);\n  print(a[n / 2]);\n  print(a[n - 1]);\n  return 0;\n}\n";

/// `examples/sum_by_halves.cilk`
pub(crate) const SUM_BY_HALVES: &str =
    "// Fills a shared array and sums it by halves, the halves side by side.\n// Fewer than 16 words are summed by one loop.\nint a[1000];\n\nvoid fill(int n) {\n  for (int i = 0; i < n; i++) a[i] = i * i % 100;\n}\n\ncilk int sum(int low, int high) {\n  if (high - low < 16) {\n    int total = 0;\n    for (int i = low; i < high; i++) total += a[i];\n    return total;\n  }\n  int middle = (low + high) / 2;\n  int left = spawn sum(low, middle);\n  int right = spawn sum(middle, high);\n  sync;\n  return left + right;\n}\n\ncilk int main() {\n  int n = 1000;\n  fill(n);\n  int total = spawn sum(0, n);\n  sync;\n  print(total);\n  return 0;\n}\n";

/// `examples/matrix_product.cilk`
pub(crate) const MATRIX_PRODUCT: &str =
    "// The product of two matrices of n by n words in flat shared arrays, each of its rows by a spawn.\n// Children read the same words and write different ones.\nint a[144], b[144], c[144];\n\ncilk void row(int n, int i) {\n  for (int j = 0; j < n; j++) {\n    int sum = 0;\n    for (int k = 0; k < n; k++) sum += a[i * n + k] * b[k * n + j];\n    c[i * n + j] = sum;\n  }\n}\n\ncilk int main() {\n  int n = 12;\n  for (int i = 0; i < n; i++) {\n    for (int j = 0; j < n; j++) {\n      a[i * n + j] = i + j;\n      b[i * n + j] = i * j + 1;\n    }\n  }\n  for (int i = 0; i < n; i++) spawn row(n, i);\n  sync;\n  int trace = 0;\n  for (int i = 0; i < n; i++) trace += c[i * n + i];\n  print(c[0]);\n  print(c[n * n - 1]);\n  print(trace);\n  return 0;\n}\n";

/// `examples/stencil.cilk`
pub(crate) const STENCIL: &str =
    "// Heat on a rod: each step sets a cell to the weighted mean of itself and its two neighbours.\n// A step's blocks are spawned; a sync stands between the steps, which go from a to b and back.\nint a[66], b[66];\n\ncilk void forth(int low, int high) {\n  for (int i = low; i < high; i++) b[i] = (a[i - 1] + 2 * a[i] + a[i + 1]) / 4;\n}\n\ncilk void back(int low, int high) {\n  for (int i = low; i < high; i++) a[i] = (b[i - 1] + 2 * b[i] + b[i + 1]) / 4;\n}\n\ncilk int main() {\n  int block = 16;\n  a[0] = 1000000;\n  b[0] = 1000000;\n  for (int step = 0; step < 20; step++) {\n    for (int low = 1; low < 65; low += block) {\n      if (step % 2 == 0) spawn forth(low, low + block);\n      else spawn back(low, low + block);\n    }\n    sync;\n  }\n  for (int i = 0; i < 8; i++) print(a[i]);\n  return 0;\n}\n";

/// `examples/counting.cilk`
pub(crate) const COUNTING: &str =
    "// Four procedures count in one shared word at once. Each addition is done at the word's home, so none is lost,\n// whatever the order; reading and writing the word apart would lose some.\nint count[1];\n\ncilk void work(int turns) {\n  int i;\n  for (i = 0; i < turns; i++) {\n    fetch_add(count[0], 1);\n  }\n}\n\ncilk int main() {\n  int i;\n  for (i = 0; i < 4; i++) {\n    spawn work(25);\n  }\n  sync;\n  print(count[0]);\n  return 0;\n}\n";

/// `examples/racing.cilk`
pub(crate) const RACING: &str =
    "// Two procedures count in one shared word, each by a read and a write apart: one of the two additions may be lost.\nint count[1];\n\ncilk void work() {\n  count[0] = count[0] + 1;\n}\n\ncilk int main() {\n  spawn work();\n  spawn work();\n  sync;\n  print(count[0]);\n  return 0;\n}\n";

/// `examples/changes.cilk`
pub(crate) const CHANGES: &str =
    "// What is written shorter: a list of declarations with values, changes and steps.\nint main(void)\n{\n  int x = 6, y;\n  y += x * 7; /* 42 */\n  x++;\n  y -= x - 5;\n  print(x);\n  print(y);\n}\n";

/// `examples/straight_line.cilk`
pub(crate) const STRAIGHT_LINE: &str =
    "// Fibonacci numbers by sums of two locals, one statement after another.\nint main() {\n  int a;\n  int b;\n  b = 1;\n  print(a);\n  print(b);\n  a = a + b;\n  print(a);\n  b = a + b;\n  print(b);\n  a = a + b;\n  print(a);\n  b = a + b;\n  print(b);\n}\n";

/// `examples/sum.cilk`
pub(crate) const SUM: &str = "int main() { int x; x = 6; print(x * 7 - 2); print(x); }\n";
